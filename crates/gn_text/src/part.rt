//! What a line is put together from.

ghost use Rattle.std.specs.Prelude.{◌≡◌, ◌++◌, length, take, OnErr, OnOk};
ghost use Rattle.gn_text.specs.Parts.{part_text, parts_text};

use crate::push::{push_hex, push_number};
use gn_wire::whole_or_none;
use std::alloc::{AllocError, Allocator};

/// A part of a line.
#[derive(Clone, Copy)]
pub(crate) enum Part<'a> {
    /// Letters as they stand.
    Word(&'a [u8]),
    /// A number in decimal digits without leading zeros.
    Number(u32),
    /// Bytes in hex digits of lower case, two for each byte.
    Hex(&'a [u8]),
}

/// Appends a part. An `Err` is out of memory, and changes nothing.
fn push_part<B: Allocator>(out: &mut Vec<u8, B>, part: &Part) -> Result<(), AllocError>
    ensures ok { OnOk result (out.new.items ≡ out.old.items ++ part_text part.now) }
    ensures err { OnErr result (out.new.items ≡ out.old.items) }
{
    match part {
        Part::Word(letters) => out.extend_from_slice(letters),
        Part::Number(number) => push_number(out, *number),
        Part::Hex(bytes) => push_hex(out, bytes),
    }
}

/// Appends some parts. An `Err` is out of memory, and leaves what stood there before as it was.
#[tactic(auto, using(crate::proofs::KeptLemmas::kept, crate::proofs::PartsLemmas::parts_step))]
fn write_parts<B: Allocator>(out: &mut Vec<u8, B>, parts: &[Part]) -> Result<(), AllocError>
    ensures ok { OnOk result (out.new.items ≡ out.old.items ++ parts_text parts.now) }
    ensures err { OnErr result (take (length out.old.items) out.new.items ≡ out.old.items) }
{
    for part in parts {
        push_part(out, part)?;
    }
    Ok(())
}

/// Appends the parts of a line, in order. An `Err` is out of memory, and changes nothing.
pub(crate) fn push_parts<B: Allocator>(
    out: &mut Vec<u8, B>,
    parts: &[Part],
) -> Result<(), AllocError>
    ensures ok { OnOk result (out.new.items ≡ out.old.items ++ parts_text parts.now) }
    ensures err { OnErr result (out.new.items ≡ out.old.items) }
{
    let start = out.len();
    let written = write_parts(out, parts);
    whole_or_none(out, start, written)
}
