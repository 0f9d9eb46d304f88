//! What is kept of an answered event, and what its caller gets.

ghost use Rattle.std.specs.Prelude.{◌≡◌, ◌↔◌, IsTrue};
ghost use Rattle.gn_rules.specs.History.{step_of};

use crate::event::{Event, is_same_event};
use crate::reply::{Reply, is_same_reply};
use std::alloc::{Allocator, Global};

/// One step of a history: the actor's number, the event, and the reply.
#[derive(Debug, Drop)]
pub struct Step<A: Allocator = Global> {
    pub actor: u32,
    pub event: Event<A>,
    pub reply: Reply<A>,
}

/// What an actor keeps of its step: the index, from 0 on, the event, and the reply.
#[derive(Debug, Drop)]
pub struct Receipt<A: Allocator = Global> {
    pub index: u32,
    pub event: Event<A>,
    pub reply: Reply<A>,
}

/// Whether the step is the actor's, with the event and the reply of the receipt.
pub fn is_step_of<A: Allocator>(step: &Step<A>, actor: u32, receipt: &Receipt<A>) -> bool
    ensures { IsTrue result ↔ (step.now ≡ step_of actor receipt.now) }
{
    step.actor == actor
        && is_same_event(&step.event, &receipt.event)
        && is_same_reply(&step.reply, &receipt.reply)
}
