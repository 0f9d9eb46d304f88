//! Events.
#![tactic(auto, using(crate::proofs::KeptLemmas::kept))]

ghost use Rattle.std.specs.Prelude.{◌≡◌, ◌++◌, length, take, OnOk, OnErr};
ghost use Rattle.gn_text.specs.Steps.{event_text};

use crate::packet::write_packet_field;
use crate::push::write_number;
use gn_numbers::event_name;
use gn_rules::Event;
use std::alloc::{AllocError, Allocator};

/// Writes an event, as it stands before the `=` of a step's line, behind what stands there. An `Err` is out of memory, and may leave a
/// part of it.
pub(crate) fn write_event<A: Allocator, B: Allocator>(
    out: &mut Vec<u8, B>,
    event: &Event<A>,
) -> Result<(), AllocError>
    ensures ok { OnOk result (out.new.items ≡ out.old.items ++ event_text event.now) }
    ensures err { OnErr result (take (length out.old.items) out.new.items ≡ out.old.items) }
{
    out.extend_from_slice(event_name(event).as_bytes())?;
    match event {
        Event::Connect => Ok(()),
        Event::Close(number) | Event::Route(number) | Event::Take(number) => {
            write_number(out, *number)
        }
        Event::Admit(c, packet) => {
            write_number(out, *c)?;
            write_packet_field(out, packet)
        }
        Event::Originate(packet) => write_packet_field(out, packet),
    }
}
