//! Steps of which only the number is kept.

ghost use Rattle.std.specs.Prelude.{◌≡◌, [], length};

use crate::keeper::Keeper;
use gn_router::step_of;
use gn_rules::{Event, Reply, Step};
use gn_trail::Trail;
use std::alloc::{AllocError, Allocator, Global};

/// Lets go of each step, and counts them. What they were only proofs read.
pub struct Forgetful<A: Allocator = Global> {
    count: u64,
    trail: Trail<Step<A>>,
    ghost counted: { count ≡ length trail.items },
}

impl<A: Allocator> Drop for Forgetful<A> {
    fn drop(self) {
        let Forgetful { count: _, trail: _ } = self;
    }
}

impl<A: Allocator> Forgetful<A> {
    /// No step yet.
    pub fn new() -> Self
        ensures { result.trail.items ≡ [] }
    {
        Forgetful {
            count: 0,
            trail: Trail::new(),
        }
    }
}

impl<A: Allocator> Keeper<A> for Forgetful<A> {
    ghost use Rattle.std.specs.Prelude.{◌≡◌, ◌+◌, ◌<◌, ◌^◌, ◌∷◌, ◌++◌, [], length, true};

    ghost kept = { λ f. f.trail.items };

    ghost has_room = { λ f. length f.trail.items + 1 < 2 ^ 64 };

    ghost leaves_reply = { true };

    fn leaves_reply(&self) -> bool {
        true
    }

    fn make_room(&mut self) -> Result<(), AllocError> {
        if self.count >= u64::MAX - 1 {
            return Err(AllocError);
        }
        Ok(())
    }

    fn keep(&mut self, actor: u32, event: &mut Event<A>, reply: &mut Reply<A>) {
        let step = step_of(actor, event, reply);
        self.trail = self.trail.and(&step);
        self.count += 1;
        *reply = step.reply;
    }

    fn count(&self) -> u32 {
        self.count as u32
    }
}
