//! The lines of which the local servent sends a Ping or a Query.

ghost use Rattle.std.specs.Prelude.{Ok, map};
ghost use Rattle.gn_capture.specs.declared.line.Line.TheVariants.{Originate};
ghost use Rattle.gn_capture.specs.Originated.{originated};
ghost use Rattle.gn_capture.specs.Outcomes.{IsLineRead};
ghost use Rattle.gn_capture.specs.Requests.{ping_of, query_after, query_from, query_of};

use crate::line::{Line, LocalRequest};
use crate::refusal::LineRefusal;
use bytes::Bytes;
use gn_payload::{WriteRefusal, write_query};
use gn_text::{Cause, guid, hex_bytes, number_u8, number_u16};
use gn_wire::{Descriptor, Guid, Kind};
use std::alloc::Allocator;

/// The line of which the local servent sends a descriptor.
fn request_line<A: Allocator>(alloc: A, descriptor: Descriptor<A>) -> Result<Line<A>, LineRefusal>
    ensures { IsLineRead result (Ok (Originate descriptor)) }
{
    Ok(Line::Originate(LocalRequest::of(alloc, descriptor)?))
}

/// What a `ping` line says: the local servent sends this Ping.
pub(crate) fn ping_line<A: Allocator + Copy>(
    alloc: A,
    fields: &[&[u8]],
) -> Result<Line<A>, LineRefusal>
    ensures { IsLineRead result (originated (ping_of (map (λ x. x.now) fields.now))) }
{
    match fields {
        [id, ttl] => {
            let Some(id) = guid(id) else {
                return Err(LineRefusal::Fault(Cause::Field));
            };
            let Some(ttl) = number_u8(ttl) else {
                return Err(LineRefusal::Fault(Cause::Field));
            };
            match Descriptor::new(id, Kind::Ping, ttl, 0, Bytes::new()) {
                Ok(ping) => request_line(alloc, ping),
                Err(_) => Err(LineRefusal::Fault(Cause::Field)),
            }
        }
        _ => Err(LineRefusal::Fault(Cause::Fields)),
    }
}

/// What a `query` line says: the local servent sends this Query.
pub(crate) fn query_line<A: Allocator + Copy>(
    alloc: A,
    fields: &[&[u8]],
) -> Result<Line<A>, LineRefusal>
    ensures { IsLineRead result (originated (query_of (map (λ x. x.now) fields.now))) }
{
    match fields {
        [id, ttl, speed, hex] => {
            let Some(id) = guid(id) else {
                return Err(LineRefusal::Fault(Cause::Field));
            };
            let Some(ttl) = number_u8(ttl) else {
                return Err(LineRefusal::Fault(Cause::Field));
            };
            query_after(alloc, id, ttl, speed, hex)
        }
        _ => Err(LineRefusal::Fault(Cause::Fields)),
    }
}

/// What it says by a speed and a text in hex, after an ID and a TTL.
fn query_after<A: Allocator + Copy>(
    alloc: A,
    id: Guid,
    ttl: u8,
    speed: &[u8],
    hex: &[u8],
) -> Result<Line<A>, LineRefusal>
    ensures { IsLineRead result (originated (query_after id ttl speed.now hex.now)) }
{
    let Some(speed) = number_u16(speed) else {
        return Err(LineRefusal::Fault(Cause::Field));
    };
    let Some(text) = hex_bytes(alloc, hex)? else {
        return Err(LineRefusal::Fault(Cause::Field));
    };
    query(alloc, id, ttl, speed, &text)
}

/// What it says by these numbers and bytes, where the bytes are a Query's text.
#[tactic(auto, using(crate::proofs::QueryLemmas::text_written, crate::proofs::QueryLemmas::text_refused))]
fn query<A: Allocator + Copy>(
    alloc: A,
    id: Guid,
    ttl: u8,
    speed: u16,
    text: &[u8],
) -> Result<Line<A>, LineRefusal>
    ensures { IsLineRead result (originated (query_from id ttl speed text.now)) }
{
    let mut payload = Vec::new(alloc);
    match write_query(speed, text, &[], &mut payload) {
        Ok(()) => match Descriptor::new(id, Kind::Query, ttl, 0, Bytes::from_vec(payload)?) {
            Ok(query) => request_line(alloc, query),
            Err(_) => Err(LineRefusal::Fault(Cause::Field)),
        },
        Err(WriteRefusal::NoMemory) => Err(LineRefusal::NoMemory),
        Err(_) => Err(LineRefusal::Fault(Cause::Field)),
    }
}
