//! Replies.
#![tactic(auto, using(crate::proofs::KeptLemmas::kept))]

ghost use Rattle.std.specs.Prelude.{◌≡◌, ◌++◌, length, take, OnOk, OnErr};
ghost use Rattle.gn_text.specs.Steps.{reply_name, reply_text};

use crate::packet::{write_packet_field, write_sends};
use crate::push::{write_field, write_number};
use gn_numbers::{counter_name, place_name, reason_name};
use gn_rules::{Counter, Reply};
use gn_wire::whole_or_none;
use std::alloc::{AllocError, Allocator};

/// The word of a reply.
fn reply_name<A: Allocator>(reply: &Reply<A>) -> &'static str
    ensures { result.now ≡ reply_name reply.now }
{
    match reply {
        Reply::Dropped(_) => "dropped",
        _ => counter_name(Counter::of(reply)),
    }
}

/// Writes a reply, as it stands after the `=` of a step's line, behind what stands there. An `Err` is out of memory, and may leave a part
/// of it.
pub(crate) fn write_reply<A: Allocator, B: Allocator>(
    out: &mut Vec<u8, B>,
    reply: &Reply<A>,
) -> Result<(), AllocError>
    ensures ok { OnOk result (out.new.items ≡ out.old.items ++ reply_text reply.now) }
    ensures err { OnErr result (take (length out.old.items) out.new.items ≡ out.old.items) }
{
    out.extend_from_slice(reply_name(reply).as_bytes())?;
    match reply {
        Reply::Routed { sends, local } => {
            write_field(out, place_name(*local).as_bytes())?;
            write_sends(out, sends.as_slice())
        }
        Reply::Dropped(reason) => write_field(out, reason_name(*reason).as_bytes()),
        Reply::Taken(packet) => write_packet_field(out, packet),
        Reply::Sent(sends) => write_sends(out, sends.as_slice()),
        _ => match reply.number() {
            Some(number) => write_number(out, number),
            None => Ok(()),
        },
    }
}

/// Appends a reply as it stands after the `=` of a step's line. An `Err` is out of memory, and changes nothing.
pub fn push_reply<A: Allocator, B: Allocator>(
    out: &mut Vec<u8, B>,
    reply: &Reply<A>,
) -> Result<(), AllocError>
    ensures ok { OnOk result (out.new.items ≡ out.old.items ++ reply_text reply.now) }
    ensures err { OnErr result (out.new.items ≡ out.old.items) }
{
    let start = out.len();
    let written = write_reply(out, reply);
    whole_or_none(out, start, written)
}
