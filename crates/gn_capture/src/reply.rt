//! The reply of a step line.

ghost use Rattle.std.specs.Prelude.{◌≡◌, IfOk, map};
ghost use Rattle.gn_capture.specs.Packets.{packet_parsed};
ghost use Rattle.gn_numbers.specs.Names.{reason_named};
ghost use Rattle.gn_capture.specs.Replies.{alone, counted_by, number_or_none, plain_parsed, reply_parsed, routed_parsed};

use crate::packet::read_packet;
use crate::sends::read_sends;
use gn_numbers::{counter_named, place_named, reason_named};
use gn_rules::{Counter, DropReason, Reply};
use gn_text::{is_word, number};
use gn_wire::Descriptor;
use std::alloc::{AllocError, Allocator};

/// The reason that a single field names.
fn reason_alone(fields: &[&[u8]]) -> Option<DropReason>
    ensures { result ≡ alone reason_named (map (λ x. x.now) fields.now) }
{
    match fields {
        [field] => reason_named(field),
        _ => None,
    }
}

/// The packet that a single field says. An `Err` is out of memory.
fn packet_alone<A: Allocator + Copy>(
    alloc: A,
    fields: &[&[u8]],
) -> Result<Option<Descriptor<A>>, AllocError>
    ensures { IfOk result (λ found. found ≡ alone packet_parsed (map (λ x. x.now) fields.now)) }
{
    match fields {
        [field] => read_packet(alloc, field),
        _ => Ok(None),
    }
}

/// The reply Routed that the fields after `routed` say. An `Err` is out of memory.
fn read_routed<A: Allocator + Copy>(
    alloc: A,
    fields: &[&[u8]],
) -> Result<Option<Reply<A>>, AllocError>
    ensures { IfOk result (λ found. found ≡ routed_parsed (map (λ x. x.now) fields.now)) }
{
    let [place, more @ ..] = fields else {
        return Ok(None);
    };
    let Some(local) = place_named(place) else {
        return Ok(None);
    };
    match read_sends(alloc, more)? {
        Some(sends) => Ok(Some(Reply::Routed { sends, local })),
        None => Ok(None),
    }
}

/// The number of a single field; none, where there is no field.
fn number_or_none(fields: &[&[u8]]) -> Option<Option<u32>>
    ensures { result ≡ number_or_none (map (λ x. x.now) fields.now) }
{
    match fields {
        [] => Some(None),
        [field] => match number(field) {
            Some(n) => Some(Some(n)),
            None => None,
        },
        _ => None,
    }
}

/// The plain reply of this counter, by the fields behind its word.
fn read_plain<A: Allocator>(fields: &[&[u8]], counter: Counter) -> Option<Reply<A>>
    ensures { result ≡ plain_parsed (map (λ x. x.now) fields.now) counter }
{
    Reply::plain(counter, number_or_none(fields)?)
}

/// The reply of this counter, by the fields behind its word. An `Err` is out of memory.
fn read_counted<A: Allocator + Copy>(
    alloc: A,
    fields: &[&[u8]],
    counter: Counter,
) -> Result<Option<Reply<A>>, AllocError>
    ensures { IfOk result (λ found. found ≡ counted_by (map (λ x. x.now) fields.now) counter) }
{
    match counter {
        Counter::Routed => read_routed(alloc, fields),
        Counter::Taken => match packet_alone(alloc, fields)? {
            Some(packet) => Ok(Some(Reply::Taken(packet))),
            None => Ok(None),
        },
        Counter::Sent => match read_sends(alloc, fields)? {
            Some(sends) => Ok(Some(Reply::Sent(sends))),
            None => Ok(None),
        },
        _ => Ok(read_plain(fields, counter)),
    }
}

/// The reply that fields say. An `Err` is out of memory.
pub(crate) fn read_reply<A: Allocator + Copy>(
    alloc: A,
    fields: &[&[u8]],
) -> Result<Option<Reply<A>>, AllocError>
    ensures { IfOk result (λ found. found ≡ reply_parsed (map (λ x. x.now) fields.now)) }
{
    let Some((word, more)) = fields.split_first() else {
        return Ok(None);
    };
    if is_word(word, b"dropped") {
        return match reason_alone(more) {
            Some(reason) => Ok(Some(Reply::Dropped(reason))),
            None => Ok(None),
        };
    }
    match counter_named(word) {
        Some(counter) => read_counted(alloc, more, counter),
        None => Ok(None),
    }
}
