//! Numbers and bytes as they are written.

ghost use Rattle.std.specs.Prelude.{◌≡◌, ◌<◌, ◌+◌, ◌*◌, ◌++◌, codes, decimal, length, slice_index, take, OnErr, OnOk};
ghost use Rattle.hex.specs.Hex.{encode_lower, lower_digits};

use itoa::Buffer;
use std::alloc::{AllocError, Allocator};

/// Appends a number in decimal digits without leading zeros. An `Err` is out of memory.
#[tactic(auto, using(std::proofs::lemmas::Fmt::decimal_digit))]
pub fn push_number<B: Allocator>(out: &mut Vec<u8, B>, number: u32) -> Result<(), AllocError>
    ensures ok { OnOk result (out.new.items ≡ out.old.items ++ decimal number) }
    ensures err { OnErr result (out.new.items ≡ out.old.items) }
{
    if number < 10 {
        out.push(b'0' + number as u8)?;
        return Ok(());
    }
    let mut buffer = Buffer::new();
    out.extend_from_slice(buffer.format(number).as_bytes())
}

/// Writes a space and then a number behind what stands there. An `Err` is out of memory, and may leave the space.
#[tactic(auto, using(crate::proofs::KeptLemmas::kept))]
pub(crate) fn write_number<B: Allocator>(
    out: &mut Vec<u8, B>,
    number: u32,
) -> Result<(), AllocError>
    ensures ok { OnOk result (out.new.items ≡ out.old.items ++ (codes " " ++ decimal number)) }
    ensures err { OnErr result (take (length out.old.items) out.new.items ≡ out.old.items) }
{
    out.push(b' ')?;
    push_number(out, number)
}

/// Writes a space and then letters as they stand behind what stands there. An `Err` is out of memory, and may leave the space.
#[tactic(auto, using(crate::proofs::KeptLemmas::kept))]
pub(crate) fn write_field<B: Allocator>(
    out: &mut Vec<u8, B>,
    letters: &[u8],
) -> Result<(), AllocError>
    ensures ok { OnOk result (out.new.items ≡ out.old.items ++ (codes " " ++ letters.now)) }
    ensures err { OnErr result (take (length out.old.items) out.new.items ≡ out.old.items) }
{
    out.push(b' ')?;
    out.extend_from_slice(letters)
}

/// The hex digit of lower case that says a number below 16.
#[tactic(auto, using(crate::proofs::HexLemmas::decimal_digit, crate::proofs::HexLemmas::letter_digit))]
fn digit(number: u8) -> u8
    requires { number < 16 }
    ensures { result ≡ slice_index lower_digits number }
{
    number + b'0' + if number < 10 { 0 } else { b'a' - 10 - b'0' }
}

/// Puts the hex digits of bytes, two for each, in place of what stands there.
fn put_digits(bytes: &[u8], digits: &mut [u8])
    requires { length digits.old ≡ 2 * length bytes.now }
    ensures { digits.new ≡ encode_lower bytes.now }
{
    for i in 0..bytes.len() {
        digits[2 * i] = digit(bytes[i] >> 4);
        digits[2 * i + 1] = digit(bytes[i] & 0x0f);
    }
}

/// Puts the hex digits of bytes and then those of more bytes in place of what stands there.
#[tactic(auto, using(crate::proofs::HexLemmas::joined))]
fn put_both(head: &[u8], tail: &[u8], digits: &mut [u8])
    requires { length digits.old ≡ 2 * length head.now + 2 * length tail.now }
    ensures { digits.new ≡ encode_lower (head.now ++ tail.now) }
{
    let (front, rest) = digits.split_at_mut(2 * head.len());
    put_digits(head, front);
    put_digits(tail, rest);
}

/// Appends bytes and then more bytes in hex digits of lower case, two for each byte, in room that is made once. An `Err`
/// is out of memory, and changes nothing.
#[tactic(auto, using(std::proofs::lemmas::Slice::overwrites, std::proofs::lemmas::List::with_items_is, std::proofs::lemmas::List::places))]
pub(crate) fn push_hex_of_both<B: Allocator>(
    out: &mut Vec<u8, B>,
    head: &[u8],
    tail: &[u8],
) -> Result<(), AllocError>
    ensures ok { OnOk result (out.new.items ≡ out.old.items ++ encode_lower (head.now ++ tail.now)) }
    ensures err { OnErr result (out.new.items ≡ out.old.items) }
{
    let start = out.len();
    let Some(middle) = start.checked_add(2 * head.len()) else {
        return Err(AllocError);
    };
    let Some(end) = middle.checked_add(2 * tail.len()) else {
        return Err(AllocError);
    };
    out.resize(end, 0)?;
    put_both(head, tail, &mut out.as_mut_slice()[start..]);
    Ok(())
}

/// Appends bytes in hex digits of lower case, two for each byte. An `Err` is out of memory, and changes nothing.
pub fn push_hex<B: Allocator>(out: &mut Vec<u8, B>, bytes: &[u8]) -> Result<(), AllocError>
    ensures ok { OnOk result (out.new.items ≡ out.old.items ++ encode_lower bytes.now) }
    ensures err { OnErr result (out.new.items ≡ out.old.items) }
{
    push_hex_of_both(out, &[], bytes)
}
