//! Descriptors in hex.

ghost use Rattle.std.specs.Prelude.{◌≡◌, ◌≤◌, IfOk, MatchOption, None, option_map, drop, length, map};
ghost use Rattle.gn_capture.specs.Events.{first_seen, number_first, packet_first};
ghost use Rattle.gn_capture.specs.Packets.{IsHeaderAlone, packet_of, packet_parsed};

use bytes::Bytes;
use gn_text::{hex_bytes, number};
use gn_wire::{Descriptor, HEADER_BYTES, Header, read_header};
use std::alloc::{AllocError, Allocator};

/// The header of the descriptor that bytes encode, from the first to the last.
#[tactic(auto, using(crate::proofs::PacketLemmas::too_short, crate::proofs::PacketLemmas::faulty, crate::proofs::PacketLemmas::other_length, crate::proofs::PacketLemmas::header_found))]
fn header_alone(bytes: &[u8]) -> Option<Header>
    ensures { MatchOption result (packet_of bytes.now ≡ None) (IsHeaderAlone bytes.now) }
{
    let head = bytes.first_chunk::<HEADER_BYTES>()?;
    match read_header(head) {
        Err(_) => None,
        Ok(header) if header.length as usize != bytes.len() - HEADER_BYTES => None,
        Ok(header) => Some(header),
    }
}

/// What stands after a header. Where that is nothing, no bytes are kept. An `Err` is out of memory.
fn payload_in<A: Allocator + Copy>(bytes: Vec<u8, A>) -> Result<Bytes<A>, AllocError>
    requires { 23 ≤ length bytes.items }
    ensures { IfOk result (λ payload. payload ≡ drop 23 bytes.items) }
{
    if bytes.len() == HEADER_BYTES {
        return Ok(Bytes::new());
    }
    let mut payload = Bytes::from_vec(bytes)?;
    payload.advance(HEADER_BYTES);
    Ok(payload)
}

/// The descriptor that bytes encode, from the first to the last. An `Err` is out of memory.
#[tactic(auto, using(crate::proofs::PacketLemmas::whole_valid))]
fn packet_in<A: Allocator + Copy>(bytes: Vec<u8, A>) -> Result<Option<Descriptor<A>>, AllocError>
    ensures { IfOk result (λ found. found ≡ packet_of bytes.items) }
{
    let Some(header) = header_alone(&bytes) else {
        return Ok(None);
    };
    let payload = payload_in(bytes)?;
    Ok(Some(Descriptor::whole(header, payload)))
}

/// The descriptor that a field encodes, where it encodes a whole one and no more. An `Err` is out of memory.
pub(crate) fn read_packet<A: Allocator + Copy>(
    alloc: A,
    field: &[u8],
) -> Result<Option<Descriptor<A>>, AllocError>
    ensures { IfOk result (λ found. found ≡ packet_parsed field.now) }
{
    match hex_bytes(alloc, field)? {
        None => Ok(None),
        Some(bytes) => packet_in(bytes),
    }
}

/// The number of the first field, and the fields after it.
pub(crate) fn number_first<'a, 'b>(fields: &'b [&'a [u8]]) -> Option<(u32, &'b [&'a [u8]])>
    ensures { option_map first_seen result ≡ number_first (map (λ x. x.now) fields.now) }
{
    match fields {
        [] => None,
        [field, more @ ..] => match number(field) {
            Some(n) => Some((n, more)),
            None => None,
        },
    }
}

/// The descriptor of the first field, and the fields after it. An `Err` is out of memory.
pub(crate) fn packet_first<'a, 'b, A: Allocator + Copy>(
    alloc: A,
    fields: &'b [&'a [u8]],
) -> Result<Option<(Descriptor<A>, &'b [&'a [u8]])>, AllocError>
    ensures { IfOk result (λ found. option_map first_seen found ≡ packet_first (map (λ x. x.now) fields.now)) }
{
    match fields {
        [] => Ok(None),
        [field, more @ ..] => match read_packet(alloc, field)? {
            Some(packet) => Ok(Some((packet, more))),
            None => Ok(None),
        },
    }
}
