//! Whether a link between two routers carried only what it was given, by their histories.

ghost use Rattle.std.specs.Prelude.{◌≡◌, ◌==◌, if◌then◌else◌, true, IsTrue, Some, None, reverse};
ghost use Rattle.std.specs.List.{Contains};
ghost use Rattle.gn_wire.specs.Packet.{Packet};
ghost use Rattle.gn_rules.specs.History.{is_take, taken_of};
ghost use Rattle.gn_rules.specs.Output.{taken};
ghost use Rattle.gn_paths.specs.Networks.{Carries};
ghost use Rattle.gn_paths.specs.Sends.{admitted_by};

use gn_rules::{ConnId, Event, Reply, Step};
use gn_wire::Descriptor;
use std::alloc::Allocator;

/// Whether the step took this descriptor from the connection.
fn is_taken<A: Allocator>(step: &Step<A>, c: ConnId, packet: &Descriptor<A>) -> bool
    ensures { IsTrue result → ((if is_take c step.now.event then taken_of step.now.reply else None) ≡ Some packet.now) }
{
    match &step.reply {
        Reply::Taken(taken) => step.event.takes(c) && taken.is_same(packet),
        _ => false,
    }
}

/// Whether a step took this descriptor from the connection.
pub(crate) fn was_taken<A: Allocator>(steps: &[Step<A>], c: ConnId, packet: &Descriptor<A>) -> bool
    ensures { IsTrue result → Contains (taken (reverse steps.now) c) packet.now }
{
    for step in steps {
        if is_taken(step, c, packet) {
            return true;
        }
    }
    false
}

/// Whether a descriptor that came on e was taken from the first router's c, unless e is another connection than d.
fn is_given<A: Allocator>(
    first: &[Step<A>],
    c: ConnId,
    d: ConnId,
    e: ConnId,
    packet: &Descriptor<A>,
) -> bool
    ensures { IsTrue result → (e == d) ≡ true → Contains (taken (reverse first.now) c) packet.now }
{
    if e == d {
        return was_taken(first, c, packet);
    }
    true
}

/// Whether what the step admitted on d, if anything, was taken from the first router's c.
fn is_carried<A: Allocator>(first: &[Step<A>], c: ConnId, step: &Step<A>, d: ConnId) -> bool
    ensures { IsTrue result → (p : Packet) → admitted_by d step.now.event step.now.reply ≡ Some p
        → Contains (taken (reverse first.now) c) p }
{
    match &step.event {
        Event::Admit(e, packet) => is_given(first, c, d, *e, packet),
        _ => true,
    }
}

/// Whether all that the second router admitted on its connection d was taken from the first one's c. What it was too busy to
/// admit counts too.
pub fn carries<A: Allocator>(first: &[Step<A>], c: ConnId, second: &[Step<A>], d: ConnId) -> bool
    ensures { IsTrue result → Carries (reverse first.now) c (reverse second.now) d }
{
    for step in second {
        if !is_carried(first, c, step, d) {
            return false;
        }
    }
    true
}
