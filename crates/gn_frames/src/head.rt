//! What stands at the head of a slice of bytes.

ghost use Rattle.std.specs.Prelude.{◌≡◌, ◌<◌, None, length};
ghost use Rattle.gn_wire.specs.Packet.{IsStored, fault_of};
ghost use Rattle.gn_wire.specs.Encoding.{packet_from};
ghost use Rattle.gn_frames.specs.Frames.{head_of};

use bytes::Bytes;
use gn_wire::{Descriptor, FrameFault, HEADER_BYTES, Header, read_header};
use std::alloc::Allocator;

/// What a string of bytes begins with: a whole descriptor, a faulty header, or too few bytes to tell.
#[derive(Clone, Copy, Debug, PartialEq, Eq)]
pub enum Head {
    /// Too few bytes for a descriptor.
    Open,
    /// A header whose length isn't valid.
    Faulty(FrameFault),
    /// A whole descriptor, with this header.
    Whole(Header),
}

/// What the bytes begin with.
pub(crate) fn head_of(bytes: &[u8]) -> Head
    ensures { result ≡ head_of bytes.now }
{
    let Some(start) = bytes.first_chunk::<HEADER_BYTES>() else {
        return Head::Open;
    };
    match read_header(start) {
        Err(fault) => Head::Faulty(fault),
        Ok(header) if bytes.len() - HEADER_BYTES < header.length as usize => Head::Open,
        Ok(header) => Head::Whole(header),
    }
}

/// The descriptor of a valid header and its payload.
pub(crate) fn whole<A: Allocator>(header: Header, payload: Bytes<A>) -> Descriptor<A>
    requires valid { fault_of header.kind header.length ≡ None }
    requires stored { IsStored header.kind }
    requires whole { length payload ≡ header.length }
    ensures { result ≡ packet_from header payload }
{
    Descriptor::whole(header, payload)
}
