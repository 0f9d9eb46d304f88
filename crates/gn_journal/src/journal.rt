//! The router's end of a journal.

ghost use Rattle.std.specs.Prelude.{◌≡◌, [], Some, length};
ghost use Rattle.rtrb.specs.Ring.{sent};
ghost use Rattle.gn_journal.specs.Rings.{name_of};

use crate::naming::Naming;
use gn_router::step_of;
use gn_rules::{Event, Reply, Step};
use gn_tables::Keeper;
use rtrb::Producer;
use std::alloc::{AllocError, Allocator, Global};
use std::marker::PhantomData;

/// What a router gives its steps to, so that a scribe writes them: nothing is kept of those that it has read. Its ring is the one
/// that `B` names.
pub struct Journal<B: Naming<A>, A: Allocator = Global> {
    pub steps: Producer<Step<A>, A>,
    count: u64,
    of: PhantomData<B>,
    pub ghost counted: { count ≡ length (sent steps) },
    pub ghost here: { B.ring ≡ Some (name_of steps.end) },
}

impl<B: Naming<A>, A: Allocator> Drop for Journal<B, A> {
    fn drop(self) {
        let Journal {
            steps: _,
            count: _,
            of: _,
        } = self;
    }
}

impl<B: Naming<A>, A: Allocator> Journal<B, A> {
    /// A journal on which nothing stands yet, over the ring that `B` names.
    pub fn new(steps: Producer<Step<A>, A>) -> Self
        requires here { B.ring ≡ Some (name_of steps.end) }
        requires empty { sent steps ≡ [] }
        ensures { sent result.steps ≡ [] }
    {
        Journal {
            steps,
            count: 0,
            of: PhantomData,
        }
    }

    /// The sending end of its ring, by which it is done with.
    pub fn into_steps(self) -> Producer<Step<A>, A>
        ensures same { result ≡ self.steps }
        ensures here { B.ring ≡ Some (name_of result.end) }
    {
        let Journal {
            steps,
            count: _,
            of: _,
        } = self;
        steps
    }
}

impl<B: Naming<A>, A: Allocator> Keeper<A> for Journal<B, A> {
    ghost use Rattle.std.specs.Prelude.{◌+◌, ◌<◌, ◌^◌, length};
    ghost use Rattle.rtrb.specs.Ring.{known_free, sent};

    ghost kept = { λ j. sent j.steps };

    ghost has_room = { λ j. (0 < known_free j.steps) × (length (sent j.steps) + 1 < 2 ^ 64) };

    #[tactic(auto, using(crate::proofs::RingLemmas::stays_here))]
    fn make_room(&mut self) -> Result<(), AllocError> {
        if self.count >= u64::MAX - 1 || self.steps.is_full() {
            return Err(AllocError);
        }
        Ok(())
    }

    #[tactic(auto, using(crate::proofs::RingLemmas::stays_here))]
    fn keep(&mut self, actor: u32, event: &mut Event<A>, reply: &mut Reply<A>) {
        self.steps.push_reserved(step_of(actor, event, reply));
        self.count += 1;
    }

    fn count(&self) -> u32 {
        self.count as u32
    }
}
