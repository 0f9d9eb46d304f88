//! The payload of a Query.

ghost use Rattle.std.specs.Prelude.{◌≡◌, ◌≤◌, ◌<◌, ◌+◌, ◌++◌, length, option_map, IfSome, IfNone, OnOk, OnErr, IfErr, MatchOption, vec_len, vec_capacity};
ghost use Rattle.gn_payload.specs.Fields.{QueryFields};
ghost use Rattle.gn_payload.specs.Grammar.{IsQuery};
ghost use Rattle.gn_payload.specs.Reading.{query_reading};
ghost use Rattle.gn_payload.specs.Refusals.{Refuses, query_refusal};
ghost use Rattle.gn_payload.specs.Encoding.{query_bytes};
ghost use Rattle.gn_payload.specs.declared.refusal.WriteRefusal.TheVariants.{NoMemory};
ghost use Rattle.gn_payload.specs.Views.{query_fields};

use crate::parts::{has_zero, split_text};
use crate::put::{put, put_ended, put_u16};
use crate::refusal::WriteRefusal;
use byteorder::{ByteOrder, LittleEndian};
use std::alloc::Allocator;

/// What is looked for, and how fast a servent must be to answer (Gnutella v0.4, "Query").
#[derive(Clone, Copy, Debug, PartialEq, Eq)]
pub struct Query<'a> {
    /// The least speed of a servent that is to answer.
    pub speed: u16,
    /// The search text, none of whose bytes is zero.
    pub text: &'a [u8],
    /// What stands after the text's end; later versions put extensions there.
    pub tail: &'a [u8],
}

/// The fields of a Query's payload, where it has them.
pub(crate) fn query_in(bytes: &[u8]) -> Option<Query<'_>>
    ensures { option_map query_fields result ≡ query_reading bytes.now }
{
    if bytes.len() < 2 {
        return None;
    }
    let (text, tail) = split_text(&bytes[2..])?;
    Some(Query {
        speed: LittleEndian::read_u16(bytes),
        text,
        tail,
    })
}

/// The reading of a Query's payload. `None` where no byte past the speed is zero.
pub fn read_query(bytes: &[u8]) -> Option<Query<'_>>
    ensures found { IfSome result (λ query. IsQuery bytes.now (query_fields query)) }
    ensures none { IfNone result ((query : QueryFields) → IsQuery bytes.now query → ⊥) }
{
    query_in(bytes)
}

/// How many bytes a Query has with this text and tail. `None` where they are more than 65,536.
fn query_size(text: &[u8], tail: &[u8]) -> Option<usize>
    ensures { MatchOption result (65536 < 3 + length text.now + length tail.now)
        (λ size. (size ≡ 3 + length text.now + length tail.now) × (size ≤ 65536)) }
{
    let left = 65_533usize
        .checked_sub(text.len())?
        .checked_sub(tail.len())?;
    Some(65_536 - left)
}

/// Appends the bytes of a Query. `NoMemory` comes only where the vector has no room for them, and a refusal changes
/// nothing.
pub fn write_query<B: Allocator>(
    speed: u16,
    text: &[u8],
    tail: &[u8],
    out: &mut Vec<u8, B>,
) -> Result<(), WriteRefusal>
    ensures ok { let q : QueryFields = record { speed = speed; text = text.now; tail = tail.now } in
        OnOk result (out.new.items ≡ out.old.items ++ query_bytes q) }
    ensures read { let q : QueryFields = record { speed = speed; text = text.now; tail = tail.now } in
        OnOk result (IsQuery (query_bytes q) q) }
    ensures refusal { Refuses result (query_refusal (record { speed = speed; text = text.now; tail = tail.now })) }
    ensures err { OnErr result (out.new.items ≡ out.old.items) }
    ensures full { IfErr result (λ e. e ≡ NoMemory
        → vec_capacity out.old < vec_len out.old + (3 + length text.now + length tail.now)) }
{
    if has_zero(text) {
        return Err(WriteRefusal::ZeroInText);
    }
    let Some(size) = query_size(text, tail) else {
        return Err(WriteRefusal::TooLong);
    };
    out.reserve(size)?;
    put_u16(out, speed);
    put_ended(out, text);
    put(out, tail);
    Ok(())
}
