//! Replies that are compared with the rules' answer, which isn't made for it. None of it takes memory.

ghost use Rattle.std.specs.Prelude.{◌≡◌, ◌↔◌, IsTrue, Ok, reverse};
ghost use Rattle.gn_rules.specs.Answer as rules;
ghost use Rattle.gn_decide.specs.Planned.{outgoing_sends, plan_reply};

use crate::rest::Rest;
use gn_decide::{Lookup, Outgoing, Plan, plan_of, send_all};
use gn_rules::{Reply, Sending, Step, is_same_reply};
use std::alloc::Allocator;

/// Whether these sends are the outgoing packets'.
fn are_outgoing<A: Allocator, L: Lookup<A>>(
    past: &L,
    outgoing: &Outgoing<'_, A>,
    sends: &[Sending<A>],
) -> bool
    ensures { IsTrue result
        ↔ (outgoing_sends (L.settings past.now) (reverse (L.steps past.now)) outgoing.now ≡ sends.now) }
{
    let mut rest = Rest::new(sends);
    match send_all(past, outgoing, &mut rest) {
        Ok(()) => rest.is_end(),
        Err(never) => match never {},
    }
}

/// Whether the reply is the one that the plan stands for.
pub fn is_planned<A: Allocator, L: Lookup<A>>(
    past: &L,
    plan: &Plan<'_, A>,
    reply: &Reply<A>,
) -> bool
    ensures { IsTrue result ↔ (plan_reply (L.settings past.now) (reverse (L.steps past.now)) plan.now ≡ reply.now) }
{
    match (plan, reply) {
        (Plan::Ready(ready), _) => is_same_reply(ready, reply),
        (Plan::Taken(packet), Reply::Taken(other)) => packet.is_same(other),
        (Plan::Routed(outgoing, here), Reply::Routed { sends, local }) => {
            here == local && are_outgoing(past, outgoing, sends.as_slice())
        }
        (Plan::Sent(outgoing), Reply::Sent(sends)) => are_outgoing(
            past,
            outgoing,
            sends.as_slice(),
        ),
        _ => false,
    }
}

/// Whether a step's reply is the rules' answer after these steps.
pub fn is_answered<A: Allocator, L: Lookup<A>>(past: &L, step: &Step<A>) -> bool
    ensures { IsTrue result
        ↔ (rules.answer (L.settings past.now) (reverse (L.steps past.now)) step.now.event ≡ Ok step.now.reply) }
{
    match plan_of(past, &step.event) {
        Ok(found) => is_planned(past, &found.plan, &step.reply),
        Err(_) => false,
    }
}
