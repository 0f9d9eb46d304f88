//! The 23 bytes that a descriptor begins with.

ghost use Rattle.std.specs.Prelude.{◌≡◌, IfOk};
ghost use Rattle.gn_wire.specs.Packet.{fault_of};
ghost use Rattle.gn_wire.specs.Encoding.{IsHeader, header_at, header_bytes, reading};

use crate::kind::{Guid, Kind};
use byteorder::{ByteOrder, LittleEndian};

/// The bytes of a header.
pub const HEADER_BYTES: usize = 23;

/// What a descriptor's first 23 bytes say (Gnutella v0.4, "Descriptor header").
#[derive(Clone, Copy, Debug, PartialEq, Eq)]
pub struct Header {
    pub id: Guid,
    pub kind: Kind,
    /// How many times the descriptor may still be forwarded.
    pub ttl: u8,
    /// How many times it has been forwarded.
    pub hops: u8,
    /// Bytes of payload.
    pub length: u32,
}

/// A payload length, in bytes, that the header's kind can't have. The stream ends there.
#[derive(Clone, Copy, Debug, PartialEq, Eq)]
pub enum FrameFault {
    /// A Ping, Pong or Push whose length isn't the only one of its kind.
    FixedLength(Kind, u32),
    /// More than 65,536 bytes.
    TooLong(u32),
}

/// Why no payload of this kind has this length in bytes, where none has.
pub fn length_fault(kind: Kind, length: u32) -> Option<FrameFault>
    ensures { result ≡ fault_of kind length }
{
    match kind {
        Kind::Ping if length == 0 => None,
        Kind::Pong if length == 14 => None,
        Kind::Push if length == 26 => None,
        Kind::Ping | Kind::Pong | Kind::Push => Some(FrameFault::FixedLength(kind, length)),
        _ if length <= 65_536 => None,
        _ => Some(FrameFault::TooLong(length)),
    }
}

/// The 23 bytes of a header, its length little endian.
pub fn write_header(header: &Header) -> [u8; HEADER_BYTES]
    ensures { result ≡ header_bytes header.now }
{
    let mut bytes = [0u8; HEADER_BYTES];
    bytes[..16].copy_from_slice(&header.id.0);
    bytes[16] = header.kind.code();
    bytes[17] = header.ttl;
    bytes[18] = header.hops;
    let mut length = [0u8; 4];
    LittleEndian::write_u32(&mut length, header.length);
    bytes[19..].copy_from_slice(&length);
    bytes
}

/// The header that the bytes say, whatever its length.
fn header_in(bytes: &[u8; HEADER_BYTES]) -> Header
    ensures { result ≡ header_at bytes.now }
{
    let mut id = [0u8; 16];
    id.copy_from_slice(&bytes[..16]);
    Header {
        id: Guid(id),
        kind: Kind::of(bytes[16]),
        ttl: bytes[17],
        hops: bytes[18],
        length: LittleEndian::read_u32(&bytes[19..]),
    }
}

/// The header that the bytes say; where its length isn't valid, the fault.
pub fn read_header(bytes: &[u8; HEADER_BYTES]) -> Result<Header, FrameFault>
    ensures value { result ≡ reading bytes.now }
    ensures header { IfOk result IsHeader }
{
    let header = header_in(bytes);
    match length_fault(header.kind, header.length) {
        None => Ok(header),
        Some(fault) => Err(fault),
    }
}
