//! Bytes put after others in a vector that has the room.

ghost use Rattle.std.specs.Prelude.{◌≡◌, ◌≤◌, ◌+◌, ◌++◌, length, vec_len, vec_capacity};
ghost use Rattle.byteorder.specs.Endian.{little_bytes};
ghost use Rattle.gn_payload.specs.Encoding.{ended};

use byteorder::{ByteOrder, LittleEndian};
use std::alloc::Allocator;

/// A number in two bytes, the least first.
pub(crate) fn little_u16(n: u16) -> [u8; 2]
    ensures { result ≡ little_bytes 2 n }
{
    let mut bytes = [0u8; 2];
    LittleEndian::write_u16(&mut bytes, n);
    bytes
}

/// A number in four bytes, the least first.
pub(crate) fn little_u32(n: u32) -> [u8; 4]
    ensures { result ≡ little_bytes 4 n }
{
    let mut bytes = [0u8; 4];
    LittleEndian::write_u32(&mut bytes, n);
    bytes
}

/// Appends bytes.
pub(crate) fn put<B: Allocator>(out: &mut Vec<u8, B>, bytes: &[u8])
    requires { vec_len out.old + length bytes.now ≤ vec_capacity out.old }
    ensures items { out.new.items ≡ out.old.items ++ bytes.now }
    ensures len { vec_len out.new ≡ vec_len out.old + length bytes.now }
    ensures capacity { vec_capacity out.old ≤ vec_capacity out.new }
{
    match out.extend_from_slice(bytes) {
        Ok(()) => {}
        Err(_) => unreachable!(),
    }
}

/// Appends a number in two bytes, the least first.
pub(crate) fn put_u16<B: Allocator>(out: &mut Vec<u8, B>, n: u16)
    requires { vec_len out.old + 2 ≤ vec_capacity out.old }
    ensures items { out.new.items ≡ out.old.items ++ little_bytes 2 n }
    ensures len { vec_len out.new ≡ vec_len out.old + 2 }
    ensures capacity { vec_capacity out.old ≤ vec_capacity out.new }
{
    put(out, &little_u16(n));
}

/// Appends a number in four bytes, the least first.
pub(crate) fn put_u32<B: Allocator>(out: &mut Vec<u8, B>, n: u32)
    requires { vec_len out.old + 4 ≤ vec_capacity out.old }
    ensures items { out.new.items ≡ out.old.items ++ little_bytes 4 n }
    ensures len { vec_len out.new ≡ vec_len out.old + 4 }
    ensures capacity { vec_capacity out.old ≤ vec_capacity out.new }
{
    put(out, &little_u32(n));
}

/// Appends a text and the zero byte that ends it.
pub(crate) fn put_ended<B: Allocator>(out: &mut Vec<u8, B>, text: &[u8])
    requires { vec_len out.old + length text.now + 1 ≤ vec_capacity out.old }
    ensures items { out.new.items ≡ out.old.items ++ ended text.now }
    ensures len { vec_len out.new ≡ vec_len out.old + length text.now + 1 }
    ensures capacity { vec_capacity out.old ≤ vec_capacity out.new }
{
    put(out, text);
    put(out, &[0]);
}
