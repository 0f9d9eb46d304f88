//! What an event with its reply does to the tables.

ghost use Rattle.std.specs.Prelude.{◌≡◌, Some, OnErr, OnOk};
ghost use Rattle.std.specs.FinMap as map;
ghost use Rattle.gn_rules.specs.declared.event.Event.TheVariants.{Take};
ghost use Rattle.gn_rules.specs.declared.reply.Reply.TheVariants.{Taken};
ghost use Rattle.gn_tables.specs.Outputs.{first_of};
ghost use Rattle.gn_table_router.specs.Followed as after;
ghost use Rattle.gn_table_router.specs.Sent.{CanSend, sent};

use crate::tables::Tables;
use gn_decide::Places;
use gn_rules::{Counter, Event, Reply, Sending, Sends, Ticket};
use gn_tables::{Neighbours, queue_one, remember};
use gn_wire::Descriptor;
use std::alloc::{AllocError, Allocator};

impl<A: Allocator + Copy> Tables<A> {
    /// Does what an event with this reply does to the tables; its packets are queued after it. An `Err` is out of memory, and
    /// changes nothing.
    #[inline(always)]
    pub(crate) fn follow(
        &mut self,
        places: Places,
        event: &Event<A>,
        reply: &Reply<A>,
    ) -> Result<(), AllocError>
        requires { after.CanFollow event.now reply.now self.old }
        ensures ok { OnOk result (self.new ≡ after.followed event.now reply.now self.old) }
        ensures err { OnErr result (self.new ≡ self.old) }
    {
        self.update(places, event, reply)?;
        self.stats.raise(Counter::of(reply));
        Ok(())
    }

    /// Does what an event with this reply does to the tables, its count left out. An `Err` is out of memory, and changes
    /// nothing.
    #[inline(always)]
    fn update(
        &mut self,
        places: Places,
        event: &Event<A>,
        reply: &Reply<A>,
    ) -> Result<(), AllocError>
        requires { after.CanMove event.now reply.now self.old }
        ensures ok { OnOk result (self.new ≡ after.moved event.now reply.now self.old) }
        ensures err { OnErr result (self.new ≡ self.old) }
    {
        match event {
            Event::Connect => {
                if let Reply::Connected(c) = reply {
                    self.neighbours.add(*c)?;
                    self.connected = *c;
                }
                Ok(())
            }
            Event::Close(c) => {
                self.neighbours.remove_near(places.neighbour, *c);
                Ok(())
            }
            Event::Admit(c, packet) => {
                if let Reply::Admitted(ticket) = reply {
                    self.flights.add(*ticket, *c, packet.copy()?)?;
                    self.admitted = *ticket + 1;
                }
                Ok(())
            }
            Event::Route(ticket) => self.route(places.flight, *ticket, reply),
            Event::Take(c) => {
                drop(self.neighbours.pop_near(places.neighbour, *c));
                Ok(())
            }
            Event::Originate(packet) => self.seen.keep(packet.kind(), packet.id(), 0),
        }
    }

    /// A flight that is routed: it is remembered, and it is over. It is looked for at the place `near` first. An `Err` is out of
    /// memory, and changes nothing.
    fn route(&mut self, near: usize, ticket: Ticket, reply: &Reply<A>) -> Result<(), AllocError>
        requires { after.CanRoute ticket reply.now self.old }
        ensures ok { OnOk result (self.new
            ≡ after.routed ticket reply.now (map.get self.old.flights.flights ticket) self.old) }
        ensures err { OnErr result (self.new ≡ self.old) }
    {
        let Some((place, flight)) = self.flights.find_near(near, ticket) else {
            return Ok(());
        };
        remember(&mut self.seen, &mut self.servents, flight, reply)?;
        drop(self.flights.finish_near(place, ticket));
        Ok(())
    }

    /// Does what a Take of this packet does to the tables, and gives the packet, moved out of what waits. Its connection is looked
    /// for at the place `near` first.
    #[inline(always)]
    pub(crate) fn take(&mut self, near: usize, c: u32, packet: &Descriptor<A>) -> Descriptor<A>
        requires first { first_of c self.old.neighbours ≡ Some packet.now }
        requires can { after.CanFollow {A = A} (Take c) (Taken packet.now) self.old }
        ensures packet { result ≡ packet.now }
        ensures tables { self.new ≡ after.followed {A = A} (Take c) (Taken packet.now) self.old }
    {
        let _ = packet;
        match self.neighbours.pop_near(near, c) {
            Some(first) => {
                self.stats.raise(Counter::Taken);
                first
            }
            None => unreachable!(),
        }
    }

    /// Queues the packets that a reply sends. The first one's connection is looked for at the place `near` first.
    #[inline(always)]
    pub(crate) fn queue(&mut self, near: usize, sends: Sends<A>)
        requires { CanSend sends self.old.neighbours }
        ensures { self.new ≡ after.queued sends self.old }
    {
        queue_all(&mut self.neighbours, near, sends.into_vec());
    }
}

/// Puts the packets that are queued after those that wait. The first one's connection is looked for at the place `near` first, and each
/// other's after the one before it, as the sends of a flood stand.
fn queue_all<A: Allocator + Copy>(
    neighbours: &mut Neighbours<A>,
    near: usize,
    sends: Vec<Sending<A>, A>,
)
    requires { CanSend sends.items neighbours.old }
    ensures { neighbours.new ≡ sent sends.items neighbours.old }
{
    let mut near = near;
    for sending in sends {
        near = queue_one(neighbours, near, sending);
    }
}
