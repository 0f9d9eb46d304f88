//! The payload of a Push.

ghost use Rattle.std.specs.Prelude.{◌≡◌, ◌≤◌, ◌<◌, ◌+◌, ◌++◌, length, IfSome, IfNone, OnOk, OnErr, vec_len, vec_capacity};
ghost use Rattle.gn_payload.specs.declared.push.Push.{Push};
ghost use Rattle.gn_payload.specs.Grammar.{IsPush};
ghost use Rattle.gn_payload.specs.Fields.{push_servent};
ghost use Rattle.gn_payload.specs.Encoding.{push_bytes};

use crate::parts::first_bytes;
use crate::put::{put, put_u16, put_u32};
use byteorder::{ByteOrder, LittleEndian};
use gn_wire::Guid;
use std::alloc::{AllocError, Allocator};

/// Which servent is asked to send which of its files where (Gnutella v0.4, "Push").
#[derive(Clone, Copy, Debug, PartialEq, Eq)]
pub struct Push {
    pub servent: Guid,
    /// The file's index among those of the servent.
    pub file: u32,
    /// The address, its first byte first.
    pub ip: [u8; 4],
    pub port: u16,
}

/// The reading of a Push's payload. `None` where it hasn't 26 bytes.
pub fn read_push(bytes: &[u8]) -> Option<Push>
    ensures found { IfSome result (λ push. IsPush bytes.now push) }
    ensures none { IfNone result ((push : Push) → IsPush bytes.now push → ⊥) }
{
    if bytes.len() != 26 {
        return None;
    }
    Some(Push {
        servent: servent_of_push(bytes),
        file: LittleEndian::read_u32(&bytes[16..]),
        ip: first_bytes(&bytes[20..]),
        port: LittleEndian::read_u16(&bytes[24..]),
    })
}

/// The servent that a Push's payload is for: its first 16 bytes. Fewer bytes are no Push, and give zeros.
pub fn servent_of_push(bytes: &[u8]) -> Guid
    ensures { 16 ≤ length bytes.now → result ≡ push_servent bytes.now }
{
    match bytes.first_chunk() {
        Some(servent) => Guid(*servent),
        None => Guid([0; 16]),
    }
}

/// Appends the 26 bytes of a Push. An `Err` is out of memory: it comes only where the vector has no room for them, and
/// changes nothing.
pub fn write_push<B: Allocator>(push: &Push, out: &mut Vec<u8, B>) -> Result<(), AllocError>
    ensures ok { OnOk result (out.new.items ≡ out.old.items ++ push_bytes push.now) }
    ensures read { OnOk result (IsPush (push_bytes push.now) push.now) }
    ensures err { OnErr result (out.new.items ≡ out.old.items) }
    ensures full { OnErr result (vec_capacity out.old < vec_len out.old + 26) }
{
    out.reserve(26)?;
    put(out, &push.servent.0);
    put_u32(out, push.file);
    put(out, &push.ip);
    put_u16(out, push.port);
    Ok(())
}
