//! For how long a serve calls a peer again.

ghost use Rattle.std.specs.Prelude.{◌≡◌, codes, false};
ghost use Rattle.std.specs.Option.{option_map_or};
ghost use Rattle.std.specs.Str.{bytes_eq};
ghost use Rattle.clap.specs.Words.{found_of, rows_of};
ghost use Rattle.gn_words.specs.ConfigTexts.{retry_text};
ghost use Rattle.gn_words.specs.Options.{IsReadAs, retry_for, retry_of, retry_with};

use crate::numbers::{NumberOption, asked};
use crate::unread::Unread;
use crate::value::Value;
use clap::ArgMatches;
use gn_text::push_number;
use std::alloc::AllocError;

/// For how long a peer that can't be called is called again.
#[derive(Clone, Copy)]
pub enum Retry {
    /// It is called once.
    Never,
    /// For so many seconds.
    For(u32),
    /// For as long as the router runs, and again once it has gone.
    Always,
}

/// What `--retry` takes beside `always`: at most a day.
const SECONDS: NumberOption = NumberOption {
    name: "retry",
    least: 0,
    most: 86_400,
    mistake: "--retry takes a number of seconds, 0 to 86400, or always",
};

/// Whether a text says that a peer is called for as long as the router runs.
fn is_always(text: Option<&str>) -> bool
    ensures { result ≡ option_map_or (λ s. bytes_eq s.now (codes "always")) text.entry false }
{
    match text {
        Some("always") => true,
        _ => false,
    }
}

/// A peer is called again for so many seconds; once, where there are none.
fn retry_for(seconds: u32) -> Retry
    ensures { result ≡ retry_for seconds }
{
    if seconds == 0 {
        Retry::Never
    } else {
        Retry::For(seconds)
    }
}

/// For how long `--retry` asks that a peer is called again.
pub fn retry_of(options: &ArgMatches<'_>) -> Result<Retry, Unread>
    ensures { IsReadAs (λ retry. retry) (retry_of (rows_of (found_of options.now))) result }
{
    if is_always(options.get_str("retry")) {
        return Ok(Retry::Always);
    }
    match asked(options, &SECONDS) {
        Ok(seconds) => Ok(retry_for(seconds)),
        Err(unread) => Err(unread),
    }
}

/// The same, by a serve of so many callers, or any number: only that calls its peers for as long as it runs.
pub fn retry_with(accept: Option<u32>, retry: Retry) -> Result<Retry, Unread>
    ensures { IsReadAs (λ retry. retry) (retry_with accept retry) result }
{
    match (accept, retry) {
        (Some(_), Retry::Always) => Err(Unread::Mistake(
            "--retry always is taken only with --accept any",
        )),
        _ => Ok(retry),
    }
}

impl Value for Retry {
    ghost text = { retry_text };

    fn push(&self, out: &mut Vec<u8>) -> Result<(), AllocError> {
        match *self {
            Retry::Never => push_number(out, 0),
            Retry::For(seconds) => push_number(out, seconds),
            Retry::Always => out.extend_from_slice(b"always"),
        }
    }
}
