//! What an event is answered, before any packet is made.

use crate::made::Made;
use gn_rules::{ConnId, Reply};
use gn_wire::Descriptor;
use std::alloc::Allocator;

/// The packets that a reply sends, before they are made.
#[derive(Drop)]
pub enum Outgoing<'a, A: Allocator> {
    /// None.
    Nothing,
    /// One packet, to a live connection that was found at this place, and for which so many wait.
    One {
        to: ConnId,
        place: usize,
        waiting: u32,
        packet: Made<'a, A>,
    },
    /// To a Ping of this connection the own Pong; then the forward, unless the descriptor is expired, to each other
    /// live connection.
    Flood(ConnId, &'a Descriptor<A>),
    /// The descriptor itself, to each live connection.
    Each(&'a Descriptor<A>),
}

/// What an event is answered, before any packet is made. It borrows the descriptors that it is about, and takes no
/// memory.
#[derive(Drop)]
pub enum Plan<'a, A: Allocator> {
    /// A reply without packets.
    Ready(Reply<A>),
    /// The packet that is taken.
    Taken(&'a Descriptor<A>),
    /// What a routed descriptor sends, and whether the local servent gets it too.
    Routed(Outgoing<'a, A>, bool),
    /// What the local servent's own descriptor sends.
    Sent(Outgoing<'a, A>),
}

/// Where what an event is about was found: the step that follows looks there first. A wrong place costs it a search, and
/// changes nothing.
#[derive(Clone, Copy, Debug)]
pub struct Places {
    /// Of the ticket that is routed, among those in flight.
    pub flight: usize,
    /// Of the connection that is closed, taken from, or sent to, among the live ones.
    pub neighbour: usize,
}

/// A plan, and where what it is about was found.
#[derive(Drop)]
pub struct Found<'a, A: Allocator> {
    pub plan: Plan<'a, A>,
    pub places: Places,
}

impl Places {
    /// Where nothing was found yet.
    pub const FIRST: Places = Places {
        flight: 0,
        neighbour: 0,
    };

    /// The place of a connection.
    pub(crate) fn of_neighbour(neighbour: usize) -> Places {
        Places {
            flight: 0,
            neighbour,
        }
    }
}

impl<'a, A: Allocator> Found<'a, A> {
    ghost use Rattle.std.specs.Prelude.{◌≡◌};

    /// A plan that is about nothing that is looked for again.
    #[inline(always)]
    pub(crate) fn anywhere(plan: Plan<'a, A>) -> Self
        ensures { result.plan ≡ plan.entry }
    {
        let places = Places::FIRST;
        Found { plan, places }
    }

    /// A plan for a ticket that was found at this place in flight.
    #[inline(always)]
    pub(crate) fn in_flight(flight: usize, plan: Plan<'a, A>) -> Self
        ensures { result.plan ≡ plan.entry }
    {
        let neighbour = match &plan {
            Plan::Routed(Outgoing::One { place, .. }, _) => *place,
            _ => 0,
        };
        let places = Places { flight, neighbour };
        Found { plan, places }
    }
}
