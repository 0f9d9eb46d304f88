//! What of a history's admissions isn't routed yet, for what is shown of a route.

ghost use Rattle.std.specs.Prelude.{◌≡◌, ◌==◌, ◌∷◌, if◌then◌else◌, List, [], None, OnOk, ℕ};
ghost use Rattle.std.specs.declared.alloc.Global.{Global};
ghost use Rattle.gn_rules.specs.Flight.{admission_of};
ghost use Rattle.gn_rules.specs.History.{is_at};
ghost use Rattle.gn_rules.specs.declared.receipt.Step.{Step};
ghost use Rattle.gn_show.specs.Kept.{Follows, seen, waits};
ghost use Rattle.gn_show.specs.Subjects.{subject};

use gn_rules::{ConnId, Event, Step, Ticket};
use gn_wire::Descriptor;
use std::alloc::{AllocError, Global};
use std::collections::BTreeMap;

/// A descriptor that was admitted, and the connection that brought it.
#[derive(Drop)]
pub(crate) struct Admission {
    origin: ConnId,
    packet: Descriptor,
}

/// A packet that an event speaks of, and the connection that brought it; 0 is this router.
#[derive(Clone, Copy)]
pub(crate) struct Subject<'a> {
    pub(crate) origin: ConnId,
    pub(crate) packet: &'a Descriptor,
}

/// What waits under each ticket.
#[derive(Drop)]
pub(crate) struct Flight {
    waiting: BTreeMap<Ticket, Admission>,
}

impl Flight {
    /// Nothing waits yet.
    pub(crate) fn new(alloc: Global) -> Self
        ensures { Follows result [] }
    {
        Flight {
            waiting: BTreeMap::new(alloc),
        }
    }

    /// The packet that an event speaks of.
    pub(crate) fn subject<'a>(&'a self, event: &'a Event) -> Option<Subject<'a>>
        ensures { seen result ≡ subject (waits self.now) event.now }
    {
        match event {
            Event::Admit(c, packet) => Some(Subject { origin: *c, packet }),
            Event::Route(ticket) => match self.waiting.get(ticket) {
                Some(admission) => Some(Subject {
                    origin: admission.origin,
                    packet: &admission.packet,
                }),
                None => None,
            },
            Event::Originate(packet) => Some(Subject { origin: 0, packet }),
            _ => None,
        }
    }

    /// Forgets what waits under a ticket, where there is one.
    fn forget(&mut self, ticket: Option<Ticket>)
        ensures { (t : ℕ) → waits self.new t ≡ (if is_at t ticket then None else waits self.old t) }
    {
        if let Some(ticket) = ticket {
            self.waiting.remove(&ticket);
        }
    }

    /// Remembers what an event admits under a ticket.
    fn remember(&mut self, ticket: Ticket, event: Event) -> Result<(), AllocError>
        ensures { OnOk result ((t : ℕ) → waits self.new t
            ≡ (if t == ticket then admission_of event else waits self.old t)) }
    {
        match event {
            Event::Admit(origin, packet) => {
                self.waiting.insert(ticket, Admission { origin, packet })?;
            }
            _ => {
                self.waiting.remove(&ticket);
            }
        }
        Ok(())
    }

    /// Forgets what a step routes, and remembers what it admits.
    pub(crate) fn follow(&mut self, step: Step) -> Result<(), AllocError>
        ensures { OnOk result ((past : List (Step Global)) → Follows self.old past → Follows self.new (step ∷ past)) }
    {
        self.forget(step.event.ticket());
        match step.reply.admitted() {
            Some(ticket) => self.remember(ticket, step.event),
            None => Ok(()),
        }
    }
}
