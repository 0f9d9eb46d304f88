//! The line of a refusal.

ghost use Rattle.std.specs.Prelude.{◌≡◌, ◌++◌, OnOk, OnErr};
ghost use Rattle.gn_text.specs.Refusals.{refusal_text};

use crate::part::{Part, push_parts};
use gn_numbers::refusal_name;
use gn_rules::Refusal;
use std::alloc::{AllocError, Allocator};

/// Appends the line of a refusal, `refused NAME`. An `Err` is out of memory, and changes nothing.
pub fn push_refusal<B: Allocator>(out: &mut Vec<u8, B>, refusal: Refusal) -> Result<(), AllocError>
    ensures ok { OnOk result (out.new.items ≡ out.old.items ++ refusal_text refusal) }
    ensures err { OnErr result (out.new.items ≡ out.old.items) }
{
    push_parts(
        out,
        &[
            Part::Word(b"refused "),
            Part::Word(refusal_name(refusal).as_bytes()),
            Part::Word(b"\n"),
        ],
    )
}
