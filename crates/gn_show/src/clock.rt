//! The times that comments of a history give its steps.

ghost use Rattle.std.specs.Prelude.{◌≡◌, OnOk};
ghost use Rattle.std.specs.List.{list_all};
ghost use Rattle.std.specs.Char.{is_ascii_digit};
ghost use Rattle.gn_show.specs.Times.{is_parts, is_seconds, is_time, time_below};

use gn_text::is_word;
use std::alloc::AllocError;

/// Where a step stands.
#[derive(Clone, Copy)]
pub(crate) struct Moment<'a> {
    /// Its index, which counts from 0.
    pub(crate) index: u32,
    /// Its time, in digits; empty where none is known.
    pub(crate) time: &'a [u8],
}

/// Whether all bytes are digits.
fn are_digits(text: &[u8]) -> bool
    ensures { result ≡ list_all is_ascii_digit text.now }
{
    text.iter().all(|b| b.is_ascii_digit())
}

/// Whether a text is one to twelve digits, which begin with 0 only where there is no other.
fn is_seconds(text: &[u8]) -> bool
    ensures { result ≡ is_seconds text.now }
{
    match text {
        [] => false,
        [digit] => digit.is_ascii_digit(),
        [first, more @ ..] => {
            first.is_ascii_digit() && *first != b'0' && more.len() <= 11 && are_digits(more)
        }
    }
}

/// Whether a text is a dot and six digits.
fn is_parts(text: &[u8]) -> bool
    ensures { result ≡ is_parts text.now }
{
    match text {
        [dot, digits @ ..] => *dot == b'.' && digits.len() == 6 && are_digits(digits),
        [] => false,
    }
}

/// Whether a text is seconds and their parts.
fn is_time(text: &[u8]) -> bool
    ensures { result ≡ is_time text.now }
{
    let dot = text.len().saturating_sub(7);
    is_seconds(&text[..dot]) && is_parts(&text[dot..])
}

/// Puts the time below a comment in place of the time above it.
#[tactic(auto, using(std::proofs::lemmas::List::take_min, std::proofs::lemmas::List::drop_min))]
pub(crate) fn pass_comment(time: &mut Vec<u8>, line: &[u8]) -> Result<(), AllocError>
    ensures { OnOk result (time.new.items ≡ time_below time.old.items line.now) }
{
    let (title, digits) = line.split_at(4.min(line.len()));
    if is_word(title, b"# t ") && is_time(digits) {
        time.clear();
        time.extend_from_slice(digits)?;
    }
    Ok(())
}
