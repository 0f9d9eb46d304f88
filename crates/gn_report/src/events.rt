//! Which events and replies an actor's receipts have.

ghost use Rattle.std.specs.Prelude.{◌≡◌, ◌==◌, ◌&&◌, length, if◌then◌else◌, is_some, None};
ghost use Rattle.std.specs.List.{count_by, filter_map, list_all, list_any, slice_get};
ghost use Rattle.gn_rules.specs.History.{closed_of, connected_of, is_at, is_close, ticket_of};
ghost use Rattle.gn_laws.specs.Owners.{is_readers, is_writers};
ghost use Rattle.gn_report.specs.BodyEnds as ends;

use gn_laws::{may_read, may_write};
use gn_rules::{ConnId, Event, Receipt, Reply};
use std::alloc::Allocator;

/// Whether an event is Connect.
fn is_connect<A: Allocator>(event: &Event<A>) -> bool
    ensures { result ≡ ends.is_connect event.now }
{
    matches!(event, Event::Connect)
}

/// Whether an event is a Connect that was replied TooMany.
fn is_too_many<A: Allocator>(event: &Event<A>, reply: &Reply<A>) -> bool
    ensures { result ≡ ends.is_turned_away event.now reply.now }
{
    match event {
        Event::Connect => matches!(reply, Reply::TooMany),
        _ => false,
    }
}

/// Whether a reply is Closed(0).
pub fn is_empty_close<A: Allocator>(reply: &Reply<A>) -> bool
    ensures { result ≡ is_at 0 (closed_of reply.now) }
{
    match reply {
        Reply::Closed(discarded) => *discarded == 0,
        _ => false,
    }
}

/// Whether a reader of the connection may have these events.
pub fn are_readers<A: Allocator>(conn: Option<ConnId>, receipts: &[Receipt<A>]) -> bool
    ensures { result ≡ list_all (λ r. is_readers conn r.event) receipts.now }
{
    receipts.iter().all(|r| may_read(&r.event, conn))
}

/// Whether a writer of the connection may have these events.
pub fn are_writers<A: Allocator>(conn: Option<ConnId>, receipts: &[Receipt<A>]) -> bool
    ensures { result ≡ list_all (λ r. is_writers conn r.event) receipts.now }
{
    receipts.iter().all(|r| may_write(&r.event, conn))
}

/// Whether each of these events is a Route.
pub fn are_routes<A: Allocator>(receipts: &[Receipt<A>]) -> bool
    ensures { result ≡ list_all (λ r. is_some (ticket_of r.event)) receipts.now }
{
    receipts.iter().all(|r| r.event.ticket().is_some())
}

/// How many of these events are Connect.
pub fn connects<A: Allocator>(receipts: &[Receipt<A>]) -> usize
    ensures { result ≡ count_by (λ r. ends.is_connect r.event) receipts.now }
{
    receipts.iter().filter(|r| is_connect(&r.event)).count()
}

/// Whether one of these events is a Close of the connection.
pub fn closes<A: Allocator>(c: ConnId, receipts: &[Receipt<A>]) -> bool
    ensures { result ≡ list_any (λ r. is_close c r.event) receipts.now }
{
    receipts.iter().any(|r| r.event.closes(c))
}

/// Whether each of these receipts is of a Connect replied TooMany.
fn are_too_many<A: Allocator>(receipts: &[Receipt<A>]) -> bool
    ensures { result ≡ list_all (λ r. ends.is_turned_away r.event r.reply) receipts.now }
{
    receipts.iter().all(|r| is_too_many(&r.event, &r.reply))
}

/// Whether these are one receipt, of a Connect replied TooMany.
pub fn is_turned_away<A: Allocator>(receipts: &[Receipt<A>]) -> bool
    ensures { result
        ≡ ((length receipts.now == 1) && list_all (λ r. ends.is_turned_away r.event r.reply) receipts.now) }
{
    receipts.len() == 1 && are_too_many(receipts)
}

/// The connection that an event made by its reply.
fn made_by<A: Allocator>(event: &Event<A>, reply: &Reply<A>) -> Option<ConnId>
    ensures { result ≡ if ends.is_connect event.now then connected_of reply.now else None }
{
    match event {
        Event::Connect => reply.connected(),
        _ => None,
    }
}

/// The connection of the first Connect that was replied Connected.
pub fn conn_of<A: Allocator>(receipts: &[Receipt<A>]) -> Option<ConnId>
    ensures { result
        ≡ slice_get
        (filter_map (λ r. if ends.is_connect r.event then connected_of r.reply else None) receipts.now) 0 }
{
    for r in receipts {
        if let Some(c) = made_by(&r.event, &r.reply) {
            return Some(c);
        }
    }
    None
}
