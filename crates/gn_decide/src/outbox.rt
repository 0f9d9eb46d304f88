//! What takes the packets that a reply sends.

ghost use Rattle.std.specs.Prelude.{◌≡◌, OnOk};
ghost use Rattle.gn_rules.specs.declared.sends.Sending.{Sending};
ghost use Rattle.gn_decide.specs.Made.{made_packet};

use crate::made::Made;
use gn_rules::{ConnId, Sending};
use std::alloc::Allocator;

/// What takes the packets that a reply sends, one after the other: it makes them, or compares them with those of a
/// reply.
pub trait Outbox<A: Allocator> {
    /// Why a send isn't taken.
    type Fault;

    /// What it becomes by a send.
    ghost after: { Self → Sending A → Self };

    /// Takes the send of a packet to a connection, queued or not.
    fn send(&mut self, to: ConnId, packet: &Made<'_, A>, queued: bool) -> Result<(), Self::Fault>
        ensures { OnOk result (self.new
            ≡ after self.old (record { to = to; packet = made_packet packet.now; queued = queued })) };
}
