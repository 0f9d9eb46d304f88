//! What a line of a capture says.

ghost use Rattle.std.specs.Prelude.{◌≡◌, IfOk};

use gn_rules::{ConnId, Ticket};
use gn_wire::Descriptor;
use std::alloc::{AllocError, Allocator, Global};
use std::marker::Model;

/// What a line of a capture says, after its three header lines. All events are by actor 0. A capture has many lines, so
/// each takes few bytes: what is large lies elsewhere.
#[derive(Drop)]
pub enum Line<A: Allocator = Global> {
    /// `join`: a new link that needs no greeting.
    Join,
    /// `open`: a new link whose bytes begin with the request of its greeting.
    Greeted,
    /// `data`: a piece of a link's bytes, which may be empty. Links count from 1.
    Piece { link: u32, bytes: PieceBytes<A> },
    /// `route`: an admitted descriptor is passed on.
    Route(Ticket),
    /// `route all`: whatever is in flight is passed on, in the order of its tickets. A capture of version 5 alone has it.
    RouteAll,
    /// `take`: the first packet that waits for a connection is taken.
    Take(ConnId),
    /// `close`: a connection ends.
    Close(ConnId),
    /// `ping` or `query`: the local servent sends this.
    Originate(LocalRequest<A>),
    /// `stats`: the counters are printed.
    Stats,
}

/// The bytes of a piece.
#[derive(Drop)]
pub struct PieceBytes<A: Allocator = Global> {
    bytes: Box<Vec<u8, A>, A>,
}

impl<A: Allocator> Model for PieceBytes<A> {
    ghost use Rattle.std.specs.Prelude.{ℕ, List};

    ghost Value = { List ℕ };

    ghost view = { λ p. p.bytes.value.items };
}

impl<A: Allocator> PieceBytes<A> {
    /// These bytes. An `Err` is out of memory.
    pub fn of(alloc: A, bytes: Vec<u8, A>) -> Result<Self, AllocError>
        ensures { IfOk result (λ p. p ≡ bytes.items) }
    {
        let bytes = Box::new(alloc, bytes)?;
        Ok(PieceBytes { bytes })
    }

    /// The bytes.
    pub fn as_slice(&self) -> &[u8]
        ensures { result.now ≡ self.now }
    {
        self.bytes.as_ref().as_slice()
    }
}

/// A Ping or a Query that the local servent sends.
#[derive(Drop)]
pub struct LocalRequest<A: Allocator = Global> {
    descriptor: Box<Descriptor<A>, A>,
}

impl<A: Allocator> Model for LocalRequest<A> {
    ghost use Rattle.gn_wire.specs.Packet.{Packet};

    ghost Value = { Packet };

    ghost view = { λ r. r.descriptor.value };
}

impl<A: Allocator> LocalRequest<A> {
    /// This descriptor. A router refuses one that the local servent may not send. An `Err` is out of memory.
    pub fn of(alloc: A, descriptor: Descriptor<A>) -> Result<Self, AllocError>
        ensures { IfOk result (λ r. r ≡ descriptor) }
    {
        let descriptor = Box::new(alloc, descriptor)?;
        Ok(LocalRequest { descriptor })
    }

    /// The descriptor.
    pub fn descriptor(&self) -> &Descriptor<A>
        ensures { result.now ≡ self.now }
    {
        self.descriptor.as_ref()
    }
}
