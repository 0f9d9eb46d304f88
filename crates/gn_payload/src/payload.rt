//! The payload of a descriptor of any kind.

ghost use Rattle.std.specs.Prelude.{◌≡◌, option_map};
ghost use Rattle.gn_payload.specs.Reading.{has_reading, reading};
ghost use Rattle.gn_payload.specs.Views.{payload_seen};

use crate::hit::{Hit, hit_in};
use crate::pong::{Pong, read_pong};
use crate::push::{Push, read_push};
use crate::query::{Query, query_in};
use gn_wire::Kind;

/// What a payload says.
#[derive(Debug, Drop)]
pub enum Payload<'a> {
    /// Nothing: a Ping's has no bytes.
    Ping,
    Pong(Pong),
    Push(Push),
    Query(Query<'a>),
    Hit(Hit<'a>),
}

/// The reading of a payload of this kind. `None` where it has none, as any of an unknown kind.
///
/// It is inlined, so that what was read isn't moved to who takes it apart.
#[inline(always)]
pub fn read_payload(kind: Kind, bytes: &[u8]) -> Option<Payload<'_>>
    ensures { option_map payload_seen result ≡ reading kind bytes.now }
{
    match kind {
        Kind::Ping if bytes.is_empty() => Some(Payload::Ping),
        Kind::Pong => Some(Payload::Pong(read_pong(bytes)?)),
        Kind::Push => Some(Payload::Push(read_push(bytes)?)),
        Kind::Query => Some(Payload::Query(query_in(bytes)?)),
        Kind::QueryHit => Some(Payload::Hit(hit_in(bytes)?)),
        _ => None,
    }
}

/// Whether a payload of this kind has a reading. Each descriptor is checked so, and what it says isn't kept for that.
pub(crate) fn is_readable(kind: Kind, payload: &[u8]) -> bool
    ensures { result ≡ has_reading kind payload.now }
{
    match kind {
        Kind::Ping => payload.is_empty(),
        Kind::Pong => payload.len() == 14,
        Kind::Push => payload.len() == 26,
        Kind::Query => query_in(payload).is_some(),
        Kind::QueryHit => hit_in(payload).is_some(),
        Kind::Unknown(_) => false,
    }
}
