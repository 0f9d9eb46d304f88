//! The line of a step.
#![tactic(auto, using(crate::proofs::KeptLemmas::kept))]

ghost use Rattle.std.specs.Prelude.{◌≡◌, ◌++◌, length, take, OnOk, OnErr};
ghost use Rattle.gn_rules.specs.declared.receipt.Step.{Step};
ghost use Rattle.gn_text.specs.Steps.{step_text};

use crate::event::write_event;
use crate::push::push_number;
use crate::reply::write_reply;
use gn_rules::{Event, Reply, Step};
use gn_wire::whole_or_none;
use std::alloc::{AllocError, Allocator};

/// Writes the line of the step of these parts behind what stands there. An `Err` is out of memory, and may leave a part of it.
fn write_step<A: Allocator, B: Allocator>(
    out: &mut Vec<u8, B>,
    actor: u32,
    event: &Event<A>,
    reply: &Reply<A>,
) -> Result<(), AllocError>
    ensures ok { let step : Step A = record { actor = actor; event = event.now; reply = reply.now } in
        OnOk result (out.new.items ≡ out.old.items ++ step_text step) }
    ensures err { OnErr result (take (length out.old.items) out.new.items ≡ out.old.items) }
{
    push_number(out, actor)?;
    out.push(b' ')?;
    write_event(out, event)?;
    out.extend_from_slice(b" = ")?;
    write_reply(out, reply)?;
    out.extend_from_slice(b"\n")
}

/// Appends the line of the step of these parts. An `Err` is out of memory, and changes nothing.
pub fn push_step_of<A: Allocator, B: Allocator>(
    out: &mut Vec<u8, B>,
    actor: u32,
    event: &Event<A>,
    reply: &Reply<A>,
) -> Result<(), AllocError>
    ensures ok { let step : Step A = record { actor = actor; event = event.now; reply = reply.now } in
        OnOk result (out.new.items ≡ out.old.items ++ step_text step) }
    ensures err { OnErr result (out.new.items ≡ out.old.items) }
{
    let start = out.len();
    let written = write_step(out, actor, event, reply);
    whole_or_none(out, start, written)
}

/// Appends the line of a step, `ACTOR EVENT = REPLY`. An `Err` is out of memory, and changes nothing.
pub fn push_step<A: Allocator, B: Allocator>(
    out: &mut Vec<u8, B>,
    step: &Step<A>,
) -> Result<(), AllocError>
    ensures ok { OnOk result (out.new.items ≡ out.old.items ++ step_text step.now) }
    ensures err { OnErr result (out.new.items ≡ out.old.items) }
{
    push_step_of(out, step.actor, &step.event, &step.reply)
}
