//! Steps that are all kept.

ghost use Rattle.std.specs.Prelude.{◌≡◌, []};

use crate::keeper::Keeper;
use gn_router::step_of;
use gn_rules::{Event, Reply, Step};
use std::alloc::{AllocError, Allocator, Global};

/// Keeps each step in memory.
#[derive(Drop)]
pub struct Whole<A: Allocator = Global> {
    pub steps: Vec<Step<A>, A>,
}

impl<A: Allocator> Whole<A> {
    /// No step yet.
    pub fn new(alloc: A) -> Self
        ensures { result.steps.items ≡ [] }
    {
        Whole {
            steps: Vec::new(alloc),
        }
    }
}

impl<A: Allocator> Keeper<A> for Whole<A> {
    ghost use Rattle.std.specs.Prelude.{◌≡◌, ◌<◌, ◌∷◌, ◌++◌, [], vec_capacity, vec_len};

    ghost kept = { λ w. w.steps.items };

    ghost has_room = { λ w. vec_len w.steps < vec_capacity w.steps };

    fn make_room(&mut self) -> Result<(), AllocError> {
        self.steps.reserve(1)
    }

    fn keep(&mut self, actor: u32, event: &mut Event<A>, reply: &mut Reply<A>) {
        self.steps.push_reserved(step_of(actor, event, reply));
    }

    fn count(&self) -> u32 {
        self.steps.len() as u32
    }
}
