//! What is queued.

use gn_wire::Descriptor;
use std::alloc::{Allocator, Global};
use std::marker::Model;

/// A descriptor that was admitted, with the ticket that it got.
#[derive(Drop)]
pub struct Job<A: Allocator = Global> {
    pub ticket: u32,
    pub descriptor: Descriptor<A>,
}

impl<A: Allocator> Model for Job<A> {
    ghost use Rattle.gn_stage.specs.Jobs.{Queued};

    ghost Value = { Queued };

    ghost view = { λ j. record { ticket = j.ticket; descriptor = j.descriptor } };
}
