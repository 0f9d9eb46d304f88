//! The tickets in flight in a replay, routed one after the other.

ghost use Rattle.std.specs.Prelude.{◌≡◌, ◌==◌, ◌++◌, ◌∷◌, [], false, if◌then◌else◌, is_some, length, IfOk, OnOk};
ghost use Rattle.gn_rules.specs.Flight.{flying, in_flight};
ghost use Rattle.gn_replay.specs.Playing.{after_playing};
ghost use Rattle.gn_replay.specs.Routes.{routes, routes_all};

use crate::playing::Play;
use gn_rules::{Counter, Event, Refusal, RouterCore, Ticket};
use std::alloc::{AllocError, Allocator};

impl<A: Allocator + Copy, C: RouterCore<A>> Play<A, C> {
    /// Whether the history has no room for a step.
    fn is_full(&self) -> bool
        ensures { result ≡ (length self.now.past == self.now.settings.numbers.steps) }
    {
        self.core.step_count() == self.core.config().numbers.steps
    }

    /// Whether something is in flight under the ticket, where the history isn't full. An `Err` is out of memory.
    fn has_flight(&self, ticket: Ticket) -> Result<bool, AllocError>
        requires { (length self.now.past == self.now.settings.numbers.steps) ≡ false }
        ensures { IfOk result (λ found. found ≡ is_some (in_flight self.now.past ticket)) }
    {
        match self.core.answer_to(&Event::Route(ticket)) {
            Ok(reply) => {
                drop(reply);
                Ok(true)
            }
            Err(Refusal::NoTicket) => Ok(false),
            Err(_) => Err(AllocError),
        }
    }

    /// The tickets in flight, in order, where the history isn't full. They are looked for from the newest on, as older ones were
    /// routed before.
    fn tickets_in_flight(&self) -> Result<Vec<Ticket, A>, AllocError>
        requires { (length self.now.past == self.now.settings.numbers.steps) ≡ false }
        ensures { IfOk result (λ tickets. tickets.items ≡ flying self.now.past) }
    {
        self.core.is_legal();
        let count = self.core.flights() as usize;
        let mut tickets = Vec::new(self.alloc);
        let mut next = self.core.stats().get(Counter::Admitted);
        while tickets.len() < count && 0 < next {
            next -= 1;
            let flies = self.has_flight(next)?;
            if !flies {
                continue;
            }
            tickets.push(next)?;
        }
        tickets.reverse();
        Ok(tickets)
    }

    /// As many tickets as are in flight.
    fn any_tickets(&self) -> Result<Vec<Ticket, A>, AllocError>
        ensures { IfOk result (λ tickets. length tickets.items ≡ length (flying self.now.past)) }
    {
        vec![in self.alloc; 0; self.core.flights() as usize]
    }

    /// Tickets whose routing is that of those in flight. A full history refuses each alike, whichever it is.
    fn tickets_to_route(&self) -> Result<Vec<Ticket, A>, AllocError>
        ensures { IfOk result (λ tickets. routes self.now.settings self.now.past tickets.items
            ≡ routes_all self.now.settings self.now.past) }
    {
        if self.is_full() {
            self.any_tickets()
        } else {
            self.tickets_in_flight()
        }
    }

    /// Routes tickets in order.
    fn route_each(&mut self, tickets: Vec<Ticket, A>) -> Result<(), AllocError>
        ensures { OnOk result (self.new ≡ after_playing self.old
            (routes self.old.settings self.old.past tickets.items)) }
    {
        for ticket in tickets {
            self.happen(Event::Route(ticket))?;
        }
        Ok(())
    }

    /// Routes what is in flight, in the order of its tickets.
    pub(crate) fn route_all(&mut self) -> Result<(), AllocError>
        ensures { OnOk result (self.new ≡ after_playing self.old (routes_all self.old.settings self.old.past)) }
    {
        let tickets = self.tickets_to_route()?;
        self.route_each(tickets)
    }
}
