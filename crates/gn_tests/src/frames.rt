//! A hundred descriptors, in one piece and byte by byte.

ghost use Rattle.std.specs.Prelude.{◌<◌};

use crate::compare::wrong_at;
use gn_frames::Reassembler;
use std::alloc::{AllocError, Global};
use std::test::Fail;

/// A hundred Pings, each with an ID of its own.
fn hundred_pings(alloc: Global) -> Result<Vec<u8>, AllocError> {
    let mut bytes = Vec::new(alloc);
    for number in 0..100u8 {
        bytes.extend_from_slice(&[number; 16])?;
        bytes.extend_from_slice(b"\0\x07\0\0\0\0\0")?;
    }
    Ok(bytes)
}

/// Appends the encodings of what a reassembler gives for a piece.
fn push_fed(given: &mut Vec<u8>, frames: &mut Reassembler, piece: &[u8]) -> Result<(), Fail> {
    let fed = frames.feed(piece)?;
    for descriptor in fed.descriptors.as_slice() {
        descriptor.write_to(given)?;
    }
    Ok(())
}

/// Appends the encodings of what a reassembler gives for these bytes, so many at a time.
fn push_all_fed(
    given: &mut Vec<u8>,
    frames: &mut Reassembler,
    bytes: &[u8],
    size: usize,
) -> Result<(), Fail>
    requires { 0 < size }
{
    for piece in bytes.chunks(size) {
        push_fed(given, frames, piece)?;
    }
    Ok(())
}

/// Whether a reassembler gives these bytes back, so many at a time, and none waits then.
fn are_given(alloc: Global, bytes: &[u8], size: usize) -> Result<bool, Fail>
    requires { 0 < size }
{
    let mut frames = Reassembler::new(alloc)?;
    let mut given = Vec::new(alloc);
    let pushed = push_all_fed(&mut given, &mut frames, bytes, size);
    let are_given = given.as_slice() == bytes;
    let pending = frames.pending();
    match pushed {
        Ok(()) => Ok(are_given && pending == 0),
        Err(fail) => Err(fail),
    }
}

/// Fails where that doesn't hold of a hundred Pings.
fn are_pings_given(alloc: Global, size: usize) -> Result<(), Fail>
    requires { 0 < size }
{
    let bytes = hundred_pings(alloc)?;
    let are_given = are_given(alloc, &bytes, size);
    drop(bytes);
    if are_given? {
        Ok(())
    } else {
        Err(wrong_at(size))
    }
}

#[test]
fn a_hundred_pings(rt: HostRuntime) -> Result<(), Fail> {
    are_pings_given(rt.alloc(), 4096)?;
    are_pings_given(rt.alloc(), 1)
}
