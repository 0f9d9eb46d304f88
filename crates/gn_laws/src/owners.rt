//! Laws of whose steps are whose, and which events are a reader's or a writer's.

ghost use Rattle.gn_laws.specs.Owners.{FittingAreMine, FittingIsMine, LinksAgree, is_readers, is_writers};
ghost use Rattle.std.specs.Prelude.{◌≡◌};

use gn_rules::{ConnId, Event};
use std::alloc::Allocator;

/// The law that a link's reader and writer have receipts of all that the history says of its connection.
pub fn links_agree<A: Allocator>()
    ensures { LinksAgree A }
{}

/// The law that all actors' receipts are their own steps where each fits the history and they are as many as its steps.
pub fn fitting_are_mine<A: Allocator>()
    ensures { FittingAreMine A }
{}

/// The law that receipts are an actor's own steps exactly where they fit the history and none is missing.
pub fn fitting_is_mine<A: Allocator>()
    ensures { FittingIsMine A }
{}

/// Whether an event may be a reader's whose link has this connection.
pub fn may_read<A: Allocator>(event: &Event<A>, conn: Option<ConnId>) -> bool
    ensures { result ≡ is_readers conn event.now }
{
    match event {
        Event::Connect | Event::Route(_) => true,
        Event::Admit(c, _) | Event::Close(c) => conn == Some(*c),
        _ => false,
    }
}

/// Whether an event may be a writer's whose link has this connection.
pub fn may_write<A: Allocator>(event: &Event<A>, conn: Option<ConnId>) -> bool
    ensures { result ≡ is_writers conn event.now }
{
    match event {
        Event::Take(c) | Event::Close(c) => conn == Some(*c),
        _ => false,
    }
}
