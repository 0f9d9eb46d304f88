//! The answers that plans stand for, with their packets made.

ghost use Rattle.std.specs.Prelude.{◌≡◌, ◌≤◌, ◌∷◌, ◌++◌, [], IfOk, length, reverse};
ghost use Rattle.gn_rules.specs.Answer as rules;
ghost use Rattle.gn_decide.specs.Planned.{outgoing_sends, plan_reply};

use gn_decide::{Lookup, Made, Outbox, Outgoing, Plan, plan_of, send_all};
use gn_rules::{ConnId, Event, Refusal, Reply, Sending, Sends};
use gn_wire::Kind;
use std::alloc::{AllocError, Allocator};
use std::marker::Model;

/// An outbox that makes the packets.
#[derive(Drop)]
struct Maker<A: Allocator> {
    alloc: A,
    sends: Vec<Sending<A>, A>,
}

impl<A: Allocator> Model for Maker<A> {
    ghost use Rattle.std.specs.Prelude.{List};
    ghost use Rattle.gn_rules.specs.declared.sends.Sending.{Sending};

    ghost Value = { List (Sending A) };

    ghost view = { λ m. m.sends.items };
}

impl<A: Allocator + Copy> Outbox<A> for Maker<A> {
    type Fault = AllocError;

    ghost after = { λ sends x. sends ++ x ∷ [] };

    fn send(&mut self, to: ConnId, packet: &Made<'_, A>, queued: bool) -> Result<(), AllocError> {
        let packet = packet.make(self.alloc)?;
        self.sends.push(Sending { to, packet, queued })?;
        Ok(())
    }
}

/// How many packets are outgoing at most. Takes no memory.
fn most_sends<A: Allocator, L: Lookup<A>>(past: &L, outgoing: &Outgoing<'_, A>) -> u32
    ensures { length (outgoing_sends (L.settings past.now) (reverse (L.steps past.now)) outgoing.now) ≤ result }
{
    match outgoing {
        Outgoing::Nothing => 0,
        Outgoing::One { .. } => 1,
        Outgoing::Flood(_, packet) => match packet.forwarded(past.config().numbers.life) {
            None => u32::from(packet.kind() == Kind::Ping),
            Some(_) => past.live_count(),
        },
        Outgoing::Each(_) => past.live_count(),
    }
}

/// The packets that are outgoing, in room that is made once. An `Err` is out of memory.
pub(crate) fn sends_of<A: Allocator + Copy, L: Lookup<A>>(
    alloc: A,
    past: &L,
    outgoing: &Outgoing<'_, A>,
) -> Result<Sends<A>, AllocError>
    ensures { IfOk result (λ sends. sends
        ≡ outgoing_sends (L.settings past.now) (reverse (L.steps past.now)) outgoing.now) }
{
    let room = Vec::with_capacity(alloc, most_sends(past, outgoing) as usize)?;
    let mut maker = Maker { alloc, sends: room };
    send_all(past, outgoing, &mut maker)?;
    Ok(Sends::from_vec(maker.sends))
}

/// The reply that a plan stands for. An `Err` is out of memory. It is inlined, so that the reply is made where it is kept.
#[inline(always)]
pub fn reply_of<A: Allocator + Copy, L: Lookup<A>>(
    alloc: A,
    past: &L,
    plan: Plan<'_, A>,
) -> Result<Reply<A>, AllocError>
    ensures { IfOk result (λ reply. reply ≡ plan_reply (L.settings past.now) (reverse (L.steps past.now)) plan.entry) }
{
    Ok(match plan {
        Plan::Ready(reply) => reply,
        Plan::Taken(packet) => Reply::Taken(packet.copy()?),
        Plan::Routed(outgoing, local) => Reply::Routed {
            sends: sends_of(alloc, past, &outgoing)?,
            local,
        },
        Plan::Sent(outgoing) => Reply::Sent(sends_of(alloc, past, &outgoing)?),
    })
}

/// The answer to an event: a reply, the rules' refusal, or out of memory where the rules give a reply. It is inlined, as
/// `reply_of` is.
#[inline(always)]
pub fn find<A: Allocator + Copy, L: Lookup<A>>(
    alloc: A,
    past: &L,
    event: &Event<A>,
) -> Result<Reply<A>, Refusal>
    ensures { rules.Finds result (rules.answer (L.settings past.now) (reverse (L.steps past.now)) event.now) }
{
    let found = plan_of(past, event)?;
    Ok(reply_of(alloc, past, found.plan)?)
}
