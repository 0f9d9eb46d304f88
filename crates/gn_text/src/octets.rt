//! Bytes in hex digits of either case.

ghost use Rattle.std.specs.Prelude.{◌≡◌, ◌<◌, ◌*◌, IfOk, MatchOption, None, Some, if◌then◌else◌, length, option_map};
ghost use Rattle.std.specs.Result.{result_ok};
ghost use Rattle.hex.specs.Hex.{decode_pairs, hex_digit_value};
ghost use Rattle.gn_text.specs.Bytes.{bytes_parsed, guid_of};

use gn_wire::Guid;
use std::alloc::{AllocError, Allocator};

/// The number that each byte says as a hex digit of either case, and 256 where it is none.
static NUMBERS: [u16; 256] = [
    256, 256, 256, 256, 256, 256, 256, 256, 256, 256, 256, 256, 256, 256, 256, 256, 256, 256, 256,
    256, 256, 256, 256, 256, 256, 256, 256, 256, 256, 256, 256, 256, 256, 256, 256, 256, 256, 256,
    256, 256, 256, 256, 256, 256, 256, 256, 256, 256, 0, 1, 2, 3, 4, 5, 6, 7, 8, 9, 256, 256, 256,
    256, 256, 256, 256, 10, 11, 12, 13, 14, 15, 256, 256, 256, 256, 256, 256, 256, 256, 256, 256,
    256, 256, 256, 256, 256, 256, 256, 256, 256, 256, 256, 256, 256, 256, 256, 256, 10, 11, 12, 13,
    14, 15, 256, 256, 256, 256, 256, 256, 256, 256, 256, 256, 256, 256, 256, 256, 256, 256, 256,
    256, 256, 256, 256, 256, 256, 256, 256, 256, 256, 256, 256, 256, 256, 256, 256, 256, 256, 256,
    256, 256, 256, 256, 256, 256, 256, 256, 256, 256, 256, 256, 256, 256, 256, 256, 256, 256, 256,
    256, 256, 256, 256, 256, 256, 256, 256, 256, 256, 256, 256, 256, 256, 256, 256, 256, 256, 256,
    256, 256, 256, 256, 256, 256, 256, 256, 256, 256, 256, 256, 256, 256, 256, 256, 256, 256, 256,
    256, 256, 256, 256, 256, 256, 256, 256, 256, 256, 256, 256, 256, 256, 256, 256, 256, 256, 256,
    256, 256, 256, 256, 256, 256, 256, 256, 256, 256, 256, 256, 256, 256, 256, 256, 256, 256, 256,
    256, 256, 256, 256, 256, 256, 256, 256, 256, 256, 256, 256, 256, 256, 256, 256, 256, 256, 256,
    256, 256, 256,
];

/// The number that a hex digit of either case says, and 256 for another byte.
fn digit_value(digit: u8) -> u16
    ensures { MatchOption (hex_digit_value digit) (result ≡ 256) (λ number. (result ≡ number) × (number < 16)) }
{
    NUMBERS[digit as usize]
}

/// Puts the bytes that pairs of hex digits say in place of what stands there. `false` where one isn't a digit.
fn put_bytes(digits: &[u8], bytes: &mut [u8]) -> bool
    requires { length digits.now ≡ 2 * length bytes.old }
    ensures { result_ok (decode_pairs 0 digits.now) ≡ (if result then Some bytes.new else None) }
{
    // A pair with a byte that is no digit comes to 256 or more. There is no branch and no early end, which would cost more.
    let mut all = 0u16;
    for i in 0..bytes.len() {
        let high = digit_value(digits[2 * i]);
        let low = digit_value(digits[2 * i + 1]);
        let pair = high * 16 + low;
        all = all | pair;
        bytes[i] = (pair % 256) as u8;
    }
    all < 256
}

/// The bytes that pairs of hex digits say, or `-` for none; an empty field says nothing. An `Err` is out of memory.
pub fn hex_bytes<A: Allocator + Copy>(
    alloc: A,
    field: &[u8],
) -> Result<Option<Vec<u8, A>>, AllocError>
    ensures { IfOk result (λ found. option_map (λ v. v.items) found ≡ bytes_parsed field.now) }
{
    match field {
        [] => Ok(None),
        [b'-'] => Ok(Some(Vec::new(alloc))),
        _ if field.len() % 2 != 0 => Ok(None),
        _ => {
            let mut bytes = vec![in alloc; 0u8; field.len() / 2]?;
            if put_bytes(field, &mut bytes) {
                Ok(Some(bytes))
            } else {
                Ok(None)
            }
        }
    }
}

/// The ID that 32 hex digits say.
pub fn guid(field: &[u8]) -> Option<Guid>
    ensures { result ≡ guid_of field.now }
{
    let mut id = [0u8; 16];
    match hex::decode_to_slice(field, &mut id) {
        Ok(()) => Some(Guid(id)),
        Err(_) => None,
    }
}
