//! The descriptors that bytes begin with, and a piece that goes on with the bytes of an unfinished one.

ghost use Rattle.std.specs.Prelude.{◌≡◌, ◌<◌, ◌++◌, length, take, IfOk, OnOk, OnErr};
ghost use Rattle.gn_frames.specs.Frames.{frames_of, head_of, prepended};
ghost use Rattle.gn_frames.specs.Pieces.{IsFound, IsTaken};

use crate::head::{Head, head_of, whole};
use crate::reassembler::Fed;
use bytes::{Bytes, BytesMut};
use gn_wire::{Descriptor, FrameFault, HEADER_BYTES, Header};
use std::alloc::{AllocError, Allocator};

/// Adds the descriptor with this header that the bytes begin with, its payload cut out of them, and leaves the bytes
/// after it. An `Err` is out of memory.
fn take_one<A: Allocator + Copy>(
    header: Header,
    bytes: &mut Bytes<A>,
    descriptors: &mut Vec<Descriptor<A>, A>,
) -> Result<(), AllocError>
    requires { head_of bytes.old ≡ Head.Whole header }
    ensures taken { OnOk result (
        prepended descriptors.new.items (frames_of bytes.new) ≡ prepended descriptors.old.items (frames_of bytes.old)) }
    ensures shorter { OnOk result (length bytes.new < length bytes.old) }
{
    bytes.advance(HEADER_BYTES);
    let payload = bytes.split_to(header.length as usize)?;
    descriptors.push(whole(header, payload))?;
    Ok(())
}

/// Adds the descriptors that the bytes begin with, and leaves the bytes after them. Gives the fault that stands there, if
/// one does. An `Err` is out of memory.
fn take_frames<A: Allocator + Copy>(
    bytes: &mut Bytes<A>,
    descriptors: &mut Vec<Descriptor<A>, A>,
) -> Result<Option<FrameFault>, AllocError>
    ensures { IfOk result (λ fault.
        IsTaken bytes.old descriptors.old.items descriptors.new.items bytes.new fault) }
{
    loop {
        match head_of(bytes.as_slice()) {
            Head::Open => return Ok(None),
            Head::Faulty(fault) => return Ok(Some(fault)),
            Head::Whole(header) => take_one(header, bytes, descriptors)?,
        }
    }
}

/// The frames of bytes, whose payloads share one copy of them, and the bytes that no descriptor has. An `Err` is out of
/// memory.
fn frames_in<A: Allocator + Copy>(
    alloc: A,
    bytes: &[u8],
) -> Result<(Fed<A>, BytesMut<A>), AllocError>
    ensures { IfOk result (λ found. IsFound bytes.now found.0.descriptors.items found.0.fault found.1.items) }
{
    let mut shared = Bytes::copy_from_slice(alloc, bytes)?;
    let mut descriptors = Vec::new(alloc);
    let fault = take_frames(&mut shared, &mut descriptors)?;
    let rest = BytesMut::copy_from_slice(alloc, shared.as_slice())?;
    Ok((Fed { descriptors, fault }, rest))
}

/// The frames of what is held with the piece after it; what no descriptor has is held from then on. An `Err` is out of
/// memory: what was held stays first.
pub(crate) fn take_piece<A: Allocator + Copy>(
    alloc: A,
    held: &mut BytesMut<A>,
    piece: &[u8],
) -> Result<Fed<A>, AllocError>
    ensures ok { IfOk result (λ fed.
        IsFound (held.old.items ++ piece.now) fed.descriptors.items fed.fault held.new.items) }
    ensures err { OnErr result (take (length held.old.items) held.new.items ≡ held.old.items) }
{
    if held.is_empty() {
        let (fed, rest) = frames_in(alloc, piece)?;
        *held = rest;
        return Ok(fed);
    }
    held.extend_from_slice(piece)?;
    match head_of(held.as_slice()) {
        Head::Open => Ok(Fed {
            descriptors: Vec::new(alloc),
            fault: None,
        }),
        Head::Faulty(_) | Head::Whole(_) => {
            let (fed, rest) = frames_in(alloc, held.as_slice())?;
            *held = rest;
            Ok(fed)
        }
    }
}
