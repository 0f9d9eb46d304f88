//! Texts of payloads.

ghost use Rattle.std.specs.Prelude.{◌≡◌, ◌++◌, true, false, decimal, string_bytes, IfOk, MatchOption, OnOk};
ghost use Rattle.std.specs.Str.{is_utf8};
ghost use Rattle.gn_text.specs.Addresses.{ip_text};

use itoa::Buffer;
use std::alloc::{AllocError, Global};
use std::str;

/// The text that bytes are, where they are UTF-8.
#[tactic(auto, using(crate::proofs::ValueLemmas::utf8_tests))]
pub(crate) fn utf8(bytes: &[u8]) -> Option<&str>
    ensures { MatchOption result (is_utf8 bytes.now ≡ false)
        (λ text. (is_utf8 bytes.now ≡ true) × (text.now ≡ bytes.now)) }
{
    str::from_utf8(bytes).ok()
}

/// Appends a word and then a number in decimal digits.
#[tactic(auto, using(std::proofs::Common::append_assoc))]
fn push_part(text: &mut String, word: &str, number: u8) -> Result<(), AllocError>
    ensures { OnOk result (string_bytes text.new ≡ string_bytes text.old ++ word.now ++ decimal number) }
{
    let mut buffer = Buffer::new();
    text.push_str(word)?;
    text.push_str(buffer.format(number))
}

/// An address in dotted decimal.
#[tactic(auto, using(std::proofs::Common::append_assoc))]
pub(crate) fn dotted(alloc: Global, ip: [u8; 4]) -> Result<String, AllocError>
    ensures { IfOk result (λ text. string_bytes text ≡ ip_text ip) }
{
    let [a, b, c, d] = ip;
    let mut text = String::with_capacity(alloc, 15)?;
    push_part(&mut text, "", a)?;
    push_part(&mut text, ".", b)?;
    push_part(&mut text, ".", c)?;
    push_part(&mut text, ".", d)?;
    Ok(text)
}
