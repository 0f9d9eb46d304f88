//! The payload of a Query Hit.

ghost use Rattle.std.specs.Prelude.{◌≡◌, ◌≤◌, length, IfSome, IfNone};
ghost use Rattle.gn_payload.specs.Fields.{HitFields, hit_servent};
ghost use Rattle.gn_payload.specs.Grammar.{IsHit};
ghost use Rattle.gn_payload.specs.Reading.{hit_reading};

use crate::hit_result::{Results, split_results};
use crate::parts::first_bytes;
use byteorder::{ByteOrder, LittleEndian};
use gn_wire::Guid;
use std::marker::Model;

/// What a servent has of what was looked for (Gnutella v0.4, "Query Hit"). Only `read_hit` makes one.
#[derive(Debug, Drop)]
pub struct Hit<'a> {
    hits: u8,
    port: u16,
    ip: [u8; 4],
    speed: u32,
    results: &'a [u8],
    trailer: &'a [u8],
    servent: Guid,
}

impl<'a> Model for Hit<'a> {
    ghost use Rattle.gn_payload.specs.Fields.{HitFields};
    ghost use Rattle.gn_payload.specs.Reading.{AreJust, results_in};

    ghost Value = { HitFields };

    ghost view = { λ h. record { port = h.port; ip = h.ip; speed = h.speed; results = results_in h.hits h.results.now; trailer = h.trailer.now; servent = h.servent } };

    ghost invariant = { λ h. AreJust h.hits h.results.now };
}

impl<'a> Hit<'a> {
    ghost use Rattle.gn_payload.specs.Grammar.{AreResults};
    ghost use Rattle.std.specs.Prelude.{[]};

    /// How many results it has.
    pub fn hits(&self) -> u8
        ensures { result ≡ length self.now.results }
    {
        self.hits
    }

    /// Where the servent is reached.
    pub fn port(&self) -> u16
        ensures { result ≡ self.now.port }
    {
        self.port
    }

    /// The servent's address, its first byte first.
    pub fn ip(&self) -> [u8; 4]
        ensures { result ≡ self.now.ip }
    {
        self.ip
    }

    /// The servent's speed.
    pub fn speed(&self) -> u32
        ensures { result ≡ self.now.speed }
    {
        self.speed
    }

    /// The results, one after another.
    pub fn results(&self) -> Results<'a>
        ensures { result ≡ self.now.results }
    {
        Results::of(self.hits, self.results)
    }

    /// The bytes that encode the results, and nothing else.
    pub fn result_bytes(&self) -> &'a [u8]
        ensures { AreResults result.now self.now.results [] }
    {
        self.results
    }

    /// What stands between the results and the servent; later versions put extensions there.
    pub fn trailer(&self) -> &'a [u8]
        ensures { result.now ≡ self.now.trailer }
    {
        self.trailer
    }

    /// The ID of the servent.
    pub fn servent(&self) -> Guid
        ensures { result ≡ self.now.servent }
    {
        self.servent
    }
}

/// The fields of a Query Hit's payload, where it has them.
pub(crate) fn hit_in(bytes: &[u8]) -> Option<Hit<'_>>
    ensures { result ≡ hit_reading bytes.now }
{
    if bytes.len() < 27 {
        return None;
    }
    let hits = bytes[0];
    let middle = &bytes[11..][..bytes.len() - 27];
    let (results, trailer) = split_results(hits, middle)?;
    Some(Hit {
        hits,
        port: LittleEndian::read_u16(&bytes[1..]),
        ip: first_bytes(&bytes[3..]),
        speed: LittleEndian::read_u32(&bytes[7..]),
        results,
        trailer,
        servent: servent_of_hit(bytes),
    })
}

/// The reading of a Query Hit's payload. `None` where its bytes are fewer than 27, or its results don't fit between the
/// first 11 and the last 16.
pub fn read_hit(bytes: &[u8]) -> Option<Hit<'_>>
    ensures found { IfSome result (λ hit. IsHit bytes.now hit) }
    ensures none { IfNone result ((hit : HitFields) → IsHit bytes.now hit → ⊥) }
{
    hit_in(bytes)
}

/// The servent that a Query Hit's payload is from: its last 16 bytes. Fewer bytes are no Query Hit, and give zeros.
pub fn servent_of_hit(bytes: &[u8]) -> Guid
    ensures { 16 ≤ length bytes.now → result ≡ hit_servent bytes.now }
{
    match bytes.last_chunk() {
        Some(servent) => Guid(*servent),
        None => Guid([0; 16]),
    }
}
