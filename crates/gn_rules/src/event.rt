//! What happens to a router.

ghost use Rattle.std.specs.Prelude.{◌≡◌, ◌↔◌, IfOk, IsTrue};

use gn_wire::Descriptor;
use std::alloc::{AllocError, Allocator, Global};

/// A connection's number. They count from 1; 0 names the local servent.
pub type ConnId = u32;

/// The number of an admission. They count from 0.
pub type Ticket = u32;

/// What an actor asks of a router, one at a time.
#[derive(Debug, Drop)]
pub enum Event<A: Allocator = Global> {
    /// A link asks for a connection.
    Connect,
    /// A connection ends; what waits for it is discarded.
    Close(ConnId),
    /// A connection delivers a descriptor.
    Admit(ConnId, Descriptor<A>),
    /// An admitted descriptor is routed.
    Route(Ticket),
    /// The first packet that waits for a connection is taken.
    Take(ConnId),
    /// The local servent sends a Ping or a Query of its own.
    Originate(Descriptor<A>),
}

impl<A: Allocator> Event<A> {
    ghost use Rattle.gn_rules.specs.History.{is_close, is_take, ticket_of};
    ghost use Rattle.gn_rules.specs.Flight.{is_route};

    /// The ticket that it routes.
    pub fn ticket(&self) -> Option<Ticket>
        ensures { result ≡ ticket_of self.now }
    {
        match self {
            Event::Route(t) => Some(*t),
            _ => None,
        }
    }

    /// Whether it closes the connection.
    pub fn closes(&self, c: ConnId) -> bool
        ensures { result ≡ is_close c self.now }
    {
        match self {
            Event::Close(d) => c == *d,
            _ => false,
        }
    }

    /// Whether it takes from the connection.
    pub fn takes(&self, c: ConnId) -> bool
        ensures { result ≡ is_take c self.now }
    {
        match self {
            Event::Take(d) => c == *d,
            _ => false,
        }
    }

    /// Whether it routes the ticket.
    pub fn routes(&self, t: Ticket) -> bool
        ensures { result ≡ is_route t self.now }
    {
        match self {
            Event::Route(u) => t == *u,
            _ => false,
        }
    }

    /// An equal event. An `Err` is out of memory. It is inlined, so that the copy is made where it is kept.
    #[inline(always)]
    pub fn copy(&self) -> Result<Event<A>, AllocError>
        ensures { IfOk result (λ e. e ≡ self.now) }
    {
        Ok(match self {
            Event::Connect => Event::Connect,
            Event::Close(c) => Event::Close(*c),
            Event::Admit(c, d) => Event::Admit(*c, d.copy()?),
            Event::Route(t) => Event::Route(*t),
            Event::Take(c) => Event::Take(*c),
            Event::Originate(d) => Event::Originate(d.copy()?),
        })
    }
}

/// Whether two events are equal, each byte of a descriptor with them.
pub fn is_same_event<A: Allocator>(a: &Event<A>, b: &Event<A>) -> bool
    ensures { IsTrue result ↔ (a.now ≡ b.now) }
{
    match (a, b) {
        (Event::Connect, Event::Connect) => true,
        (Event::Close(c), Event::Close(d)) => c == d,
        (Event::Admit(c, packet), Event::Admit(d, other)) => c == d && packet.is_same(other),
        (Event::Route(t), Event::Route(u)) => t == u,
        (Event::Take(c), Event::Take(d)) => c == d,
        (Event::Originate(packet), Event::Originate(other)) => packet.is_same(other),
        _ => false,
    }
}
