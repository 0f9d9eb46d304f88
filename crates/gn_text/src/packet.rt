//! Descriptors in hex, and the packets that a reply sends.
#![tactic(auto, using(crate::proofs::KeptLemmas::kept))]

ghost use Rattle.std.specs.Prelude.{◌≡◌, ◌+◌, ◌-◌, ◌≤◌, ◌++◌, ◌∷◌, [], codes, length, slice_range, take, IfSome, OnOk, OnErr};
ghost use Rattle.hex.specs.Hex.{encode_lower};
ghost use Rattle.gn_text.specs.Steps.{mark_text, packet_text, sends_text};

use crate::push::{push_hex, push_hex_of_both, write_number};
use gn_rules::Sending;
use gn_wire::{Descriptor, HEADER_BYTES, write_header};
use std::alloc::{AllocError, Allocator};

/// A header and the byte after it: their digits are put eight bytes at a time, and no byte is left over.
fn with_byte(header: &[u8; HEADER_BYTES], byte: u8) -> [u8; 24]
    ensures { result ≡ header.now ++ byte ∷ [] }
{
    let mut both = [byte; 24];
    both[..HEADER_BYTES].copy_from_slice(header);
    both
}

/// Appends a header in hex digits. An `Err` is out of memory, and changes nothing.
fn push_header<B: Allocator>(
    out: &mut Vec<u8, B>,
    header: &[u8; HEADER_BYTES],
) -> Result<(), AllocError>
    ensures ok { OnOk result (out.new.items ≡ out.old.items ++ encode_lower header.now) }
    ensures err { OnErr result (out.new.items ≡ out.old.items) }
{
    push_hex(out, &with_byte(header, 0))?;
    out.truncate(out.len() - 2);
    Ok(())
}

/// Appends a descriptor's header and then its payload, in hex digits. An `Err` is out of memory, and changes nothing.
fn push_packet<A: Allocator, B: Allocator>(
    out: &mut Vec<u8, B>,
    packet: &Descriptor<A>,
) -> Result<(), AllocError>
    ensures ok { OnOk result (out.new.items ≡ out.old.items ++ packet_text packet.now) }
    ensures err { OnErr result (out.new.items ≡ out.old.items) }
{
    let header = write_header(&packet.header());
    match packet.payload().as_slice() {
        [] => push_header(out, &header),
        [first, rest @ ..] => push_hex_of_both(out, &with_byte(&header, *first), rest),
    }
}

/// Writes a space and then a descriptor behind what stands there. An `Err` is out of memory, and may leave the space.
pub(crate) fn write_packet_field<A: Allocator, B: Allocator>(
    out: &mut Vec<u8, B>,
    packet: &Descriptor<A>,
) -> Result<(), AllocError>
    ensures ok { OnOk result (out.new.items ≡ out.old.items ++ (codes " " ++ packet_text packet.now)) }
    ensures err { OnErr result (take (length out.old.items) out.new.items ≡ out.old.items) }
{
    out.push(b' ')?;
    push_packet(out, packet)
}

/// Puts what stands at a place, from the first index up to the second, in place of what stands from `start` on.
fn put_copy(text: &mut [u8], start: usize, place: (usize, usize))
    requires ends { place.0 ≤ place.1 }
    requires within { place.1 ≤ start }
    requires room { start + (place.1 - place.0) ≡ length text.old }
    ensures { text.new ≡ take start text.old ++ slice_range text.old place.0 place.1 }
{
    let (head, copy) = text.split_at_mut(start);
    copy.copy_from_slice(&head[place.0..place.1]);
}

/// Appends a copy of what stands at this place, from the first index up to the second. An `Err` is out of memory, and changes
/// nothing.
#[tactic(auto, using(std::proofs::lemmas::List::with_items_is, crate::proofs::CopiedLemmas::part_stays))]
fn append_copy<B: Allocator>(out: &mut Vec<u8, B>, place: (usize, usize)) -> Result<(), AllocError>
    requires ends { place.0 ≤ place.1 }
    requires within { place.1 ≤ length out.old.items }
    ensures ok { OnOk result (out.new.items ≡ out.old.items ++ slice_range out.old.items place.0 place.1) }
    ensures err { OnErr result (out.new.items ≡ out.old.items) }
{
    let start = out.len();
    let Some(end) = start.checked_add(place.1 - place.0) else {
        return Err(AllocError);
    };
    out.resize(end, 0)?;
    put_copy(out.as_mut_slice(), start, place);
    Ok(())
}

/// Appends the text of a packet. It is copied where the packet before is the same, whose text stands at this place, from the
/// first index up to the second. An `Err` is out of memory, and changes nothing.
fn write_next<A: Allocator, B: Allocator>(
    out: &mut Vec<u8, B>,
    packet: &Descriptor<A>,
    before: Option<&Descriptor<A>>,
    place: (usize, usize),
) -> Result<(), AllocError>
    requires ends { place.0 ≤ place.1 }
    requires within { place.1 ≤ length out.old.items }
    requires before { IfSome before (λ b. slice_range out.old.items place.0 place.1 ≡ packet_text b.now) }
    ensures ok { OnOk result (out.new.items ≡ out.old.items ++ packet_text packet.now) }
    ensures err { OnErr result (out.new.items ≡ out.old.items) }
{
    match before {
        Some(before) if packet.is_same(before) => append_copy(out, place),
        _ => push_packet(out, packet),
    }
}

/// The mark of a send.
fn mark(queued: bool) -> u8
    ensures { result ∷ [] ≡ mark_text queued }
{
    if queued { b'+' } else { b'-' }
}

/// Writes the sends behind what stands there. An `Err` is out of memory, and may leave a part of them.
pub(crate) fn write_sends<A: Allocator, B: Allocator>(
    out: &mut Vec<u8, B>,
    sends: &[Sending<A>],
) -> Result<(), AllocError>
    ensures ok { OnOk result (out.new.items ≡ out.old.items ++ sends_text sends.now) }
    ensures err { OnErr result (take (length out.old.items) out.new.items ≡ out.old.items) }
{
    let mut before = None;
    let mut place = (0, 0);
    for sending in sends {
        write_number(out, sending.to)?;
        out.push(mark(sending.queued))?;
        let start = out.len();
        write_next(out, &sending.packet, before, place)?;
        before = Some(&sending.packet);
        place = (start, out.len());
    }
    Ok(())
}
