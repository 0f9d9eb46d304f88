//! The lines of what happens to a link.

ghost use Rattle.std.specs.Prelude.{◌≡◌, ◌++◌, OnOk, OnErr};
ghost use Rattle.gn_text.specs.Links.{ended_text, frame_fault_text, greeting_refused_text};

use crate::part::{Part, push_parts};
use gn_numbers::kind_names;
use gn_wire::FrameFault;
use std::alloc::{AllocError, Allocator};

/// Appends the line of a descriptor that a link can't have, `fault LINK fixed KIND LENGTH` or `fault LINK long LENGTH`,
/// the length in bytes of payload. An `Err` is out of memory, and changes nothing.
pub fn push_frame_fault<B: Allocator>(
    out: &mut Vec<u8, B>,
    link: u32,
    fault: FrameFault,
) -> Result<(), AllocError>
    ensures ok { OnOk result (out.new.items ≡ out.old.items ++ frame_fault_text link fault) }
    ensures err { OnErr result (out.new.items ≡ out.old.items) }
{
    match fault {
        FrameFault::FixedLength(kind, length) => push_parts(
            out,
            &[
                Part::Word(b"fault "),
                Part::Number(link),
                Part::Word(b" fixed "),
                Part::Word(kind_names(kind).word.as_bytes()),
                Part::Word(b" "),
                Part::Number(length),
                Part::Word(b"\n"),
            ],
        ),
        FrameFault::TooLong(length) => push_parts(
            out,
            &[
                Part::Word(b"fault "),
                Part::Number(link),
                Part::Word(b" long "),
                Part::Number(length),
                Part::Word(b"\n"),
            ],
        ),
    }
}

/// Appends the line of a link whose greeting isn't the one that is due, `greeting LINK refused`. An `Err` is out of
/// memory, and changes nothing.
pub fn push_greeting_refused<B: Allocator>(
    out: &mut Vec<u8, B>,
    link: u32,
) -> Result<(), AllocError>
    ensures ok { OnOk result (out.new.items ≡ out.old.items ++ greeting_refused_text link) }
    ensures err { OnErr result (out.new.items ≡ out.old.items) }
{
    push_parts(
        out,
        &[
            Part::Word(b"greeting "),
            Part::Number(link),
            Part::Word(b" refused\n"),
        ],
    )
}

/// Appends the line of bytes for a link that has ended, `ended LINK`. An `Err` is out of memory, and changes nothing.
pub fn push_ended<B: Allocator>(out: &mut Vec<u8, B>, link: u32) -> Result<(), AllocError>
    ensures ok { OnOk result (out.new.items ≡ out.old.items ++ ended_text link) }
    ensures err { OnErr result (out.new.items ≡ out.old.items) }
{
    push_parts(
        out,
        &[Part::Word(b"ended "), Part::Number(link), Part::Word(b"\n")],
    )
}
