//! The search of a history for what was admitted.

ghost use Rattle.std.specs.Prelude.{◌≡◌, if◌then◌else◌, reverse};
ghost use Rattle.gn_rules.specs.Flight.{admission, admission_of};
ghost use Rattle.gn_rules.specs.History.{admitted_of, is_at};
ghost use Rattle.gn_decide.specs.Seen.{admission_seen};

use gn_rules::{ConnId, Event, Step, Ticket};
use gn_wire::Descriptor;
use std::alloc::Allocator;

/// What was admitted under the ticket after a step, where it was that before.
fn admission_after<'a, A: Allocator>(
    step: &'a Step<A>,
    t: Ticket,
    before: Option<(ConnId, &'a Descriptor<A>)>,
) -> Option<(ConnId, &'a Descriptor<A>)>
    ensures { admission_seen result ≡ (if is_at t (admitted_of step.now.reply)
        then admission_of step.now.event else admission_seen before.entry) }
{
    match step.reply.admitted() {
        Some(u) if t == u => match &step.event {
            Event::Admit(c, d) => Some((*c, d)),
            _ => None,
        },
        _ => before,
    }
}

/// What was admitted under the ticket, and by which connection.
pub(crate) fn admission_in<A: Allocator>(
    history: &[Step<A>],
    t: Ticket,
) -> Option<(ConnId, &Descriptor<A>)>
    ensures { admission_seen result ≡ admission (reverse history.now) t }
{
    let mut found = None;
    for step in history {
        found = admission_after(step, t, found);
    }
    found
}
