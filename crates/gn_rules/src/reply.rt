//! What a router answers.

ghost use Rattle.std.specs.Prelude.{◌≡◌, ◌↔◌, IfOk, IsTrue};

use crate::event::{ConnId, Ticket};
use crate::routing::Routing;
use crate::sends::{Sending, Sends, are_same_sends};
use crate::statistics::Counter;
use gn_wire::{Descriptor, Kind};
use std::alloc::{AllocError, Allocator, Global};

/// Why a descriptor isn't sent on.
#[derive(Clone, Copy, Debug, PartialEq, Eq)]
pub enum DropReason {
    /// Version 0.4 doesn't name its kind.
    UnknownKind,
    /// Its payload can't be read.
    Malformed,
    /// A Ping, Query or Push whose key is remembered.
    Duplicate,
    /// A Pong or Query Hit whose request isn't remembered, or a Push whose servent isn't.
    NoRoute,
    /// Its route back leads to a connection that has closed.
    RouteGone,
    /// Its route back leads to the connection that delivered it.
    BackToSender,
    /// It came with TTL 0 or 1, or with Hops 255, or a limit leaves at most 1 of its life.
    Expired,
}

impl DropReason {
    ghost use Rattle.gn_rules.specs.Plain.{reason_of};

    /// The reason that a counter counts.
    pub fn of(counter: Counter) -> Option<DropReason>
        ensures { result ≡ reason_of counter }
    {
        match counter {
            Counter::UnknownKind => Some(DropReason::UnknownKind),
            Counter::Malformed => Some(DropReason::Malformed),
            Counter::Duplicate => Some(DropReason::Duplicate),
            Counter::NoRoute => Some(DropReason::NoRoute),
            Counter::RouteGone => Some(DropReason::RouteGone),
            Counter::BackToSender => Some(DropReason::BackToSender),
            Counter::Expired => Some(DropReason::Expired),
            _ => None,
        }
    }
}

/// What a router answers to an event.
#[derive(Debug, Drop)]
pub enum Reply<A: Allocator = Global> {
    /// The new connection's number.
    Connected(ConnId),
    /// The limit of live connections is reached.
    TooMany,
    /// How many packets were discarded.
    Closed(u32),
    /// The descriptor's ticket.
    Admitted(Ticket),
    /// As many descriptors are in flight as may be; this one is gone.
    Busy,
    /// As many of this connection are in flight as one may have; this one is gone.
    Crowded,
    /// What was sent on, and whether the local servent gets it too.
    Routed { sends: Sends<A>, local: bool },
    /// The descriptor is gone.
    Dropped(DropReason),
    /// The packet that was taken.
    Taken(Descriptor<A>),
    /// The packets of the local servent's own descriptor.
    Sent(Sends<A>),
}

impl<A: Allocator> Reply<A> {
    ghost use Rattle.gn_rules.specs.History.{admitted_of, connected_of, is_routed_reply, is_sent_reply, dropped_of, sends_of};
    ghost use Rattle.gn_rules.specs.Fits.{is_at_threshold};
    ghost use Rattle.gn_rules.specs.Plain.{is_plain, number_of, plain_of};
    ghost use Rattle.gn_rules.specs.SeenEntries.{keeps};

    /// The plain reply of a counter and a number.
    pub fn plain(counter: Counter, number: Option<u32>) -> Option<Reply<A>>
        ensures { result ≡ plain_of counter number }
    {
        match (counter, number) {
            (Counter::Connected, Some(c)) => Some(Reply::Connected(c)),
            (Counter::TooMany, None) => Some(Reply::TooMany),
            (Counter::Closed, Some(count)) => Some(Reply::Closed(count)),
            (Counter::Admitted, Some(t)) => Some(Reply::Admitted(t)),
            (Counter::Busy, None) => Some(Reply::Busy),
            (Counter::Crowded, None) => Some(Reply::Crowded),
            _ => None,
        }
    }

    /// Whether its counter and its number say all of it: it has no packets and no reason.
    pub fn is_plain(&self) -> bool
        ensures { result ≡ is_plain self.now }
    {
        !matches!(
            self,
            Reply::Routed { .. } | Reply::Dropped(_) | Reply::Taken(_) | Reply::Sent(_)
        )
    }

    /// Its number: a connection, how many packets were discarded, or a ticket.
    pub fn number(&self) -> Option<u32>
        ensures { result ≡ number_of self.now }
    {
        match self {
            Reply::Connected(number) | Reply::Closed(number) | Reply::Admitted(number) => {
                Some(*number)
            }
            _ => None,
        }
    }

    /// The connection that it made.
    pub fn connected(&self) -> Option<ConnId>
        ensures { result ≡ connected_of self.now }
    {
        match self {
            Reply::Connected(c) => Some(*c),
            _ => None,
        }
    }

    /// The ticket that it gave.
    pub fn admitted(&self) -> Option<Ticket>
        ensures { result ≡ admitted_of self.now }
    {
        match self {
            Reply::Admitted(t) => Some(*t),
            _ => None,
        }
    }

    /// Why it dropped a descriptor, where it did.
    pub fn dropped(&self) -> Option<DropReason>
        ensures { result ≡ dropped_of self.now }
    {
        match self {
            Reply::Dropped(reason) => Some(*reason),
            _ => None,
        }
    }

    /// Whether it says that a threshold is reached, that of all or that of one connection.
    pub fn is_at_threshold(&self) -> bool
        ensures { result ≡ is_at_threshold self.now }
    {
        matches!(self, Reply::Busy | Reply::Crowded)
    }

    /// Whether it says that a descriptor was routed.
    pub fn is_routed(&self) -> bool
        ensures { result ≡ is_routed_reply self.now }
    {
        matches!(self, Reply::Routed { .. })
    }

    /// Whether it says that the local servent's descriptor was sent.
    pub fn is_sent(&self) -> bool
        ensures { result ≡ is_sent_reply self.now }
    {
        matches!(self, Reply::Sent(_))
    }

    /// Whether the route that it answers is kept, of a descriptor of this kind: of a request where it was routed, of a Push
    /// unless it was malformed or a duplicate.
    pub fn keeps(&self, kind: Kind) -> bool
        ensures { result ≡ keeps kind self.now }
    {
        match Routing::of(kind) {
            Routing::Floods => self.is_routed(),
            Routing::Pushed => !matches!(
                self,
                Reply::Dropped(DropReason::Malformed | DropReason::Duplicate)
            ),
            _ => false,
        }
    }

    /// The packets that it sends.
    pub fn sends(&self) -> &[Sending<A>]
        ensures { result.now ≡ sends_of self.now }
    {
        match self {
            Reply::Routed { sends, .. } => sends.as_slice(),
            Reply::Sent(sends) => sends.as_slice(),
            _ => &[],
        }
    }
}

impl<A: Allocator + Copy> Reply<A> {
    /// An equal reply. An `Err` is out of memory. It is inlined, so that the copy is made where it is kept.
    #[inline(always)]
    pub fn copy(&self, alloc: A) -> Result<Self, AllocError>
        ensures { IfOk result (λ r. r ≡ self.now) }
    {
        Ok(match self {
            Reply::Connected(c) => Reply::Connected(*c),
            Reply::TooMany => Reply::TooMany,
            Reply::Closed(count) => Reply::Closed(*count),
            Reply::Admitted(t) => Reply::Admitted(*t),
            Reply::Busy => Reply::Busy,
            Reply::Crowded => Reply::Crowded,
            Reply::Routed { sends, local } => Reply::Routed {
                sends: sends.copy(alloc)?,
                local: *local,
            },
            Reply::Dropped(reason) => Reply::Dropped(*reason),
            Reply::Taken(packet) => Reply::Taken(packet.copy()?),
            Reply::Sent(sends) => Reply::Sent(sends.copy(alloc)?),
        })
    }
}

/// Whether two replies are equal, each send and each byte of a packet with them.
pub fn is_same_reply<A: Allocator>(a: &Reply<A>, b: &Reply<A>) -> bool
    ensures { IsTrue result ↔ (a.now ≡ b.now) }
{
    match (a, b) {
        (Reply::Connected(c), Reply::Connected(d)) => c == d,
        (Reply::TooMany, Reply::TooMany) => true,
        (Reply::Closed(count), Reply::Closed(other)) => count == other,
        (Reply::Admitted(t), Reply::Admitted(u)) => t == u,
        (Reply::Busy, Reply::Busy) => true,
        (Reply::Crowded, Reply::Crowded) => true,
        (
            Reply::Routed { sends, local },
            Reply::Routed {
                sends: others,
                local: here,
            },
        ) => local == here && are_same_sends(sends.as_slice(), others.as_slice()),
        (Reply::Dropped(reason), Reply::Dropped(other)) => reason == other,
        (Reply::Taken(packet), Reply::Taken(other)) => packet.is_same(other),
        (Reply::Sent(sends), Reply::Sent(others)) => {
            are_same_sends(sends.as_slice(), others.as_slice())
        }
        _ => false,
    }
}
