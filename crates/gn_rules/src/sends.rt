//! The packets that one reply sends.

ghost use Rattle.std.specs.Prelude.{◌≡◌, ◌↔◌, IfOk, IsTrue};

use crate::event::ConnId;
use gn_wire::Descriptor;
use std::alloc::{AllocError, Allocator, Global};
use std::marker::Model;

/// One packet to one connection. Where it isn't queued the connection's output was full, and the packet is gone.
#[derive(Debug, Drop)]
pub struct Sending<A: Allocator = Global> {
    pub to: ConnId,
    pub queued: bool,
    pub packet: Descriptor<A>,
}

/// The packets that a reply sends, in order.
#[derive(Debug)]
pub struct Sends<A: Allocator = Global> {
    items: Vec<Sending<A>, A>,
}

impl<A: Allocator> Drop for Sends<A> {
    fn drop(self) {
        let Sends { items: _ } = self;
    }
}

impl<A: Allocator> Sending<A> {
    /// An equal one. An `Err` is out of memory.
    pub fn copy(&self) -> Result<Self, AllocError>
        ensures { IfOk result (λ s. s ≡ self.now) }
    {
        Ok(Sending {
            to: self.to,
            packet: self.packet.copy()?,
            queued: self.queued,
        })
    }
}

impl<A: Allocator> Model for Sends<A> {
    ghost use Rattle.std.specs.Prelude.{List};
    ghost use Rattle.gn_rules.specs.declared.sends.Sending.{Sending};

    ghost Value = { List (Sending A) };

    ghost view = { λ s. s.items.items };
}

impl<A: Allocator> Sends<A> {
    /// These packets. Takes no memory.
    pub fn from_vec(items: Vec<Sending<A>, A>) -> Self
        ensures { result ≡ items.items }
    {
        Sends { items }
    }

    /// The packets, in order, so that each can be moved out. Takes no memory.
    pub fn into_vec(self) -> Vec<Sending<A>, A>
        ensures { result.items ≡ self }
    {
        let Sends { items } = self;
        items
    }

    /// The packets, in order.
    pub fn as_slice(&self) -> &[Sending<A>]
        ensures { result.now ≡ self.now }
    {
        self.items.as_slice()
    }
}

impl<A: Allocator + Copy> Sends<A> {
    ghost use Rattle.std.specs.Prelude.{[], ◌∷◌, ◌++◌, OnOk, OnErr};

    /// No packets. Takes no memory.
    pub fn new(alloc: A) -> Self
        ensures { result ≡ [] }
    {
        Sends {
            items: Vec::new(alloc),
        }
    }

    /// Adds a packet at the end. An `Err` is out of memory, and changes nothing.
    pub fn push(&mut self, sending: Sending<A>) -> Result<(), AllocError>
        ensures ok { OnOk result (self.new ≡ self.old ++ sending ∷ []) }
        ensures err { OnErr result (self.new ≡ self.old) }
    {
        self.items.push(sending)?;
        Ok(())
    }

    /// Equal packets. An `Err` is out of memory.
    pub fn copied(alloc: A, sends: &[Sending<A>]) -> Result<Self, AllocError>
        ensures { IfOk result (λ s. s ≡ sends.now) }
    {
        let mut items = Vec::with_capacity(alloc, sends.len())?;
        for sending in sends {
            items.push_reserved(sending.copy()?);
        }
        Ok(Sends { items })
    }

    /// Equal packets. An `Err` is out of memory.
    pub fn copy(&self, alloc: A) -> Result<Self, AllocError>
        ensures { IfOk result (λ s. s ≡ self.now) }
    {
        Sends::copied(alloc, self.as_slice())
    }
}

/// Whether two lists of sends are equal.
pub(crate) fn are_same_sends<A: Allocator>(xs: &[Sending<A>], ys: &[Sending<A>]) -> bool
    ensures { IsTrue result ↔ (xs.now ≡ ys.now) }
{
    if xs.len() != ys.len() {
        return false;
    }
    for i in 0..xs.len() {
        if !is_same_sending(&xs[i], &ys[i]) {
            return false;
        }
    }
    true
}

/// Whether two sends are equal.
fn is_same_sending<A: Allocator>(x: &Sending<A>, y: &Sending<A>) -> bool
    ensures { IsTrue result ↔ (x.now ≡ y.now) }
{
    x.to == y.to && x.packet.is_same(&y.packet) && x.queued == y.queued
}
