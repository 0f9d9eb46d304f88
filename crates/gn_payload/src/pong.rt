//! The payload of a Pong.

ghost use Rattle.std.specs.Prelude.{◌≡◌, ◌<◌, ◌+◌, ◌++◌, IfSome, IfNone, OnOk, OnErr, vec_len, vec_capacity};
ghost use Rattle.gn_payload.specs.declared.pong.Pong.{Pong};
ghost use Rattle.gn_payload.specs.Grammar.{IsPong};
ghost use Rattle.gn_payload.specs.Encoding.{pong_bytes};

use crate::parts::first_bytes;
use crate::put::{little_u16, little_u32, put};
use byteorder::{ByteOrder, LittleEndian};
use std::alloc::{AllocError, Allocator};

/// Where a servent is reached and what it shares (Gnutella v0.4, "Pong").
#[derive(Clone, Copy, Debug, PartialEq, Eq)]
pub struct Pong {
    pub port: u16,
    /// The address, its first byte first: 127.0.0.1 is `[127, 0, 0, 1]`.
    pub ip: [u8; 4],
    /// How many files it shares.
    pub files: u32,
    /// How many kilobytes they have.
    pub kbytes: u32,
}

/// The reading of a Pong's payload. `None` where it hasn't 14 bytes.
pub fn read_pong(bytes: &[u8]) -> Option<Pong>
    ensures found { IfSome result (λ pong. IsPong bytes.now pong) }
    ensures none { IfNone result ((pong : Pong) → IsPong bytes.now pong → ⊥) }
{
    if bytes.len() != 14 {
        return None;
    }
    Some(Pong {
        port: LittleEndian::read_u16(bytes),
        ip: first_bytes(&bytes[2..]),
        files: LittleEndian::read_u32(&bytes[6..]),
        kbytes: LittleEndian::read_u32(&bytes[10..]),
    })
}

/// The 14 bytes of a Pong. It takes no memory.
pub fn encode_pong(pong: &Pong) -> [u8; 14]
    ensures bytes { result ≡ pong_bytes pong.now.port pong.now.ip pong.now.files pong.now.kbytes }
    ensures read { IsPong (pong_bytes pong.now.port pong.now.ip pong.now.files pong.now.kbytes) pong.now }
{
    let port = little_u16(pong.port);
    let ip = pong.ip;
    let files = little_u32(pong.files);
    let kbytes = little_u32(pong.kbytes);
    [
        port[0], port[1], ip[0], ip[1], ip[2], ip[3], files[0], files[1], files[2], files[3],
        kbytes[0], kbytes[1], kbytes[2], kbytes[3],
    ]
}

/// Appends the 14 bytes of a Pong. An `Err` is out of memory: it comes only where the vector has no room for them, and
/// changes nothing.
pub fn write_pong<B: Allocator>(pong: &Pong, out: &mut Vec<u8, B>) -> Result<(), AllocError>
    ensures ok { OnOk result (out.new.items
        ≡ out.old.items ++ pong_bytes pong.now.port pong.now.ip pong.now.files pong.now.kbytes) }
    ensures read { OnOk result (IsPong (pong_bytes pong.now.port pong.now.ip pong.now.files pong.now.kbytes) pong.now) }
    ensures err { OnErr result (out.new.items ≡ out.old.items) }
    ensures full { OnErr result (vec_capacity out.old < vec_len out.old + 14) }
{
    out.reserve(14)?;
    put(out, &encode_pong(pong));
    Ok(())
}
