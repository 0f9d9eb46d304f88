//! The packets that a reply sends.

ghost use Rattle.std.specs.Prelude.{◌≡◌, ◌≤◌, IfOk, length, map};
ghost use Rattle.gn_capture.specs.Packets.{packet_parsed};
ghost use Rattle.gn_capture.specs.Replies.{hex_of, is_unmarked, mark_place, marked_parsed, sending_parsed, sends_parsed};
ghost use Rattle.gn_capture.specs.Known.{IsKnown, SaysLast};

use crate::packet::read_packet;
use gn_rules::{Sending, Sends};
use gn_text::{is_word, number};
use gn_wire::Descriptor;
use std::alloc::{AllocError, Allocator};

/// Whether a byte is neither of the two marks of a send.
fn is_unmarked(byte: u8) -> bool
    ensures { result ≡ is_unmarked byte }
{
    !(byte == b'+' || byte == b'-')
}

/// Where the first mark of a field stands; its end, where there is none.
fn mark_place(field: &[u8]) -> usize
    ensures value { result ≡ mark_place field.now }
    ensures bound { result ≤ length field.now }
{
    for (i, byte) in field.iter().enumerate() {
        if !is_unmarked(*byte) {
            return i;
        }
    }
    field.len()
}

/// The packet that hex digits say. It is copied where the packet before has the same digits. An `Err` is out of memory.
#[tactic(auto, using(crate::proofs::KnownLemmas::said_again))]
fn read_next<A: Allocator + Copy>(
    alloc: A,
    hex: &[u8],
    before: Option<(&[u8], &Descriptor<A>)>,
) -> Result<Option<Descriptor<A>>, AllocError>
    requires { IsKnown before }
    ensures { IfOk result (λ found. found ≡ packet_parsed hex.now) }
{
    match before {
        Some((digits, packet)) if is_word(hex, digits) => Ok(Some(packet.copy()?)),
        _ => read_packet(alloc, hex),
    }
}

/// The send to the connection that `to` says, of a mark and a packet's hex digits. An `Err` is out of memory.
fn read_marked<A: Allocator + Copy>(
    alloc: A,
    to: &[u8],
    marked: &[u8],
    before: Option<(&[u8], &Descriptor<A>)>,
) -> Result<Option<Sending<A>>, AllocError>
    requires { IsKnown before }
    ensures { IfOk result (λ found. found ≡ marked_parsed to.now marked.now) }
{
    let [mark, hex @ ..] = marked else {
        return Ok(None);
    };
    let Some(to) = number(to) else {
        return Ok(None);
    };
    match read_next(alloc, hex, before)? {
        Some(packet) => Ok(Some(Sending {
            to,
            packet,
            queued: *mark == b'+',
        })),
        None => Ok(None),
    }
}

/// The send that a field says. An `Err` is out of memory.
fn read_sending<A: Allocator + Copy>(
    alloc: A,
    field: &[u8],
    before: Option<(&[u8], &Descriptor<A>)>,
) -> Result<Option<Sending<A>>, AllocError>
    requires { IsKnown before }
    ensures { IfOk result (λ found. found ≡ sending_parsed field.now) }
{
    let (to, marked) = field.split_at(mark_place(field));
    read_marked(alloc, to, marked, before)
}

/// What of a field stands after its mark.
fn hex_of(field: &[u8]) -> &[u8]
    ensures { result.now ≡ hex_of field.now }
{
    let (_, marked) = field.split_at(mark_place(field));
    match marked {
        [_, hex @ ..] => hex,
        [] => &[],
    }
}

/// The last of these packets, beside the hex digits that say it.
#[tactic(auto, using(crate::proofs::KnownLemmas::known_last))]
fn last_known<'a, A: Allocator>(
    sends: &'a [Sending<A>],
    hex: &'a [u8],
) -> Option<(&'a [u8], &'a Descriptor<A>)>
    requires { SaysLast hex.now sends.now }
    ensures { IsKnown result }
{
    let last = sends.last()?;
    Some((hex, &last.packet))
}

/// The sends that fields say, one each. An `Err` is out of memory.
#[tactic(auto, using(crate::proofs::KnownLemmas::says_sent))]
pub(crate) fn read_sends<A: Allocator + Copy>(
    alloc: A,
    fields: &[&[u8]],
) -> Result<Option<Sends<A>>, AllocError>
    ensures { IfOk result (λ found. found ≡ sends_parsed (map (λ x. x.now) fields.now)) }
{
    let mut sends = Sends::from_vec(Vec::with_capacity(alloc, fields.len())?);
    let mut hex: &[u8] = &[];
    for field in fields {
        let before = last_known(sends.as_slice(), hex);
        match read_sending(alloc, field, before)? {
            Some(sending) => sends.push(sending)?,
            None => return Ok(None),
        }
        hex = hex_of(field);
    }
    Ok(Some(sends))
}
