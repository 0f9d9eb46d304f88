//! Two routers that one link joins, as a network, and a Query Hit that came over it.

ghost use Rattle.std.specs.Prelude.{◌≡◌, IsTrue, reverse, Some};
ghost use Rattle.gn_wire.specs.declared.kind.Kind.TheVariants.{QueryHit};
ghost use Rattle.gn_wire.specs.Packet.{Packet};
ghost use Rattle.gn_paths.specs.Networks.{IsNetwork};
ghost use Rattle.gn_paths.specs.Sends.{admitted_by};
ghost use Rattle.gn_witness.specs.Pair.{CameOver, HitAdmitted, pair};

use crate::legality::is_legal;
use crate::links::carries;
use crate::moments::carries_in_time;
use gn_paths::{answers_came_back, answers_cross_back, answers_follow};
use gn_rules::{Config, ConnId, Event, Step};
use gn_wire::Kind;
use std::alloc::Allocator;

/// Whether both histories are legal, and a link between the first router's c and the second one's d carried only what it was
/// given, in both directions. Takes no memory.
pub fn are_joined<A: Allocator>(
    config: &Config,
    first: &[Step<A>],
    c: ConnId,
    second: &[Step<A>],
    d: ConnId,
) -> bool
    ensures { IsTrue result → IsNetwork (pair config.now (reverse first.now) c (reverse second.now) d) }
{
    if !is_legal(config, first) {
        return false;
    }
    if !is_legal(config, second) {
        return false;
    }
    if !carries(first, c, second, d) {
        return false;
    }
    carries(second, d, first, c)
}

/// Whether the step admitted a Query Hit on the connection.
fn is_hit<A: Allocator>(step: &Step<A>, c: ConnId) -> bool
    ensures { IsTrue result → (p : Packet) × (admitted_by c step.now.event step.now.reply ≡ Some p)
        × (p.kind ≡ QueryHit) }
{
    match &step.event {
        Event::Admit(e, packet) => {
            *e == c && packet.kind() == Kind::QueryHit && step.reply.admitted().is_some()
        }
        _ => false,
    }
}

/// Whether a Query Hit was admitted on the connection.
fn has_hit<A: Allocator>(steps: &[Step<A>], c: ConnId) -> bool
    ensures { IsTrue result → HitAdmitted (reverse steps.now) c }
{
    for step in steps {
        if is_hit(step, c) {
            return true;
        }
    }
    false
}

/// As `are_joined` at each moment of the first router, and whether a Query Hit came to it over the link. Takes no memory.
pub fn came_over<A: Allocator>(
    config: &Config,
    first: &[Step<A>],
    c: ConnId,
    second: &[Step<A>],
    d: ConnId,
) -> bool
    ensures { IsTrue result → CameOver config.now (reverse first.now) c (reverse second.now) d }
{
    answers_came_back::<A>();
    answers_cross_back::<A>();
    answers_follow::<A>();
    if !has_hit(first, c) {
        return false;
    }
    if !carries_in_time(second, d, first, c) {
        return false;
    }
    are_joined(config, first, c, second, d)
}
