//! IP addresses in dotted decimal, read and written.

ghost use Rattle.std.specs.Prelude.{◌≡◌, ◌++◌, map, IfOk, OnErr, OnOk};
ghost use Rattle.gn_text.specs.Addresses.{ip_of, ip_of_parts, ip_text};

use crate::line::parts;
use crate::part::{Part, push_parts};
use gn_numbers::number_u8;
use std::alloc::{AllocError, Allocator};

/// The address of four numbers of 0 to 255.
fn ip_of_parts(parts: &[&[u8]]) -> Option<[u8; 4]>
    ensures { result ≡ ip_of_parts (map (λ x. x.now) parts.now) }
{
    match parts {
        [a, b, c, d] => Some([number_u8(a)?, number_u8(b)?, number_u8(c)?, number_u8(d)?]),
        _ => None,
    }
}

/// The address that four numbers joined by dots say, its first byte first. An `Err` is out of memory.
pub fn ip<A: Allocator + Copy>(alloc: A, field: &[u8]) -> Result<Option<[u8; 4]>, AllocError>
    ensures { IfOk result (λ found. found ≡ ip_of field.now) }
{
    Ok(ip_of_parts(&parts(alloc, field, b'.')?))
}

/// Appends an address in dotted decimal. An `Err` is out of memory, and changes nothing.
pub fn push_ip<B: Allocator>(out: &mut Vec<u8, B>, ip: [u8; 4]) -> Result<(), AllocError>
    ensures ok { OnOk result (out.new.items ≡ out.old.items ++ ip_text ip) }
    ensures err { OnErr result (out.new.items ≡ out.old.items) }
{
    let [a, b, c, d] = ip;
    push_parts(
        out,
        &[
            Part::Number(u32::from(a)),
            Part::Word(b"."),
            Part::Number(u32::from(b)),
            Part::Word(b"."),
            Part::Number(u32::from(c)),
            Part::Word(b"."),
            Part::Number(u32::from(d)),
        ],
    )
}
