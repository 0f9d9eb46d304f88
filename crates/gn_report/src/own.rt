//! Whether receipts are an actor's own steps.

ghost use Rattle.std.specs.Prelude.{◌≡◌, ◌==◌, ◌+◌, ◌<◌, ◌↔◌, IsTrue, [], true, slice_index_or};
ghost use Rattle.std.specs.List.{count_by};
ghost use Rattle.gn_rules.specs.declared.receipt.Step.{Step};
ghost use Rattle.gn_rules.specs.History.{mine};
ghost use Rattle.gn_laws.specs.Owners.{AreFitting};
ghost use Rattle.gn_actors.specs.declared.who.Who.TheVariants.{House};
ghost use Rattle.gn_report.specs.Actors as actors;
ghost use Rattle.gn_report.specs.Actors.{AreOwn, Stands};

use crate::report::Report;
use gn_rules::{Receipt, Step, is_step_of};
use std::alloc::Allocator;

/// Whether the step at the receipt's index is the actor's, with the receipt's event and reply.
fn stands<A: Allocator>(steps: &[Step<A>], actor: u32, receipt: &Receipt<A>) -> bool
    ensures { IsTrue result ↔ Stands steps.now actor receipt.now }
{
    let place = receipt.index as usize;
    place < steps.len() && is_step_of(&steps[place], actor, receipt)
}

/// Whether each receipt stands at its index, and the indices ascend. It looks at as many steps as there are receipts.
pub fn are_fitting<A: Allocator>(steps: &[Step<A>], actor: u32, receipts: &[Receipt<A>]) -> bool
    ensures { IsTrue result ↔ AreFitting steps.now actor receipts.now }
{
    let mut low: u64 = 0;
    for receipt in receipts {
        if (receipt.index as u64) < low {
            return false;
        }
        if !stands(steps, actor, receipt) {
            return false;
        }
        low = receipt.index as u64 + 1;
    }
    true
}

/// How many steps are the actor's.
fn steps_of<A: Allocator>(steps: &[Step<A>], actor: u32) -> usize
    ensures { result ≡ count_by (λ step. step.actor == actor) steps.now }
{
    steps.iter().filter(|step| step.actor == actor).count()
}

/// Whether these are the receipts of all the actor's steps, in order. It walks over the history.
pub fn are_own<A: Allocator>(steps: &[Step<A>], actor: u32, receipts: &[Receipt<A>]) -> bool
    ensures { IsTrue result ↔ (receipts.now ≡ mine steps.now actor) }
{
    are_fitting(steps, actor, receipts) && receipts.len() == steps_of(steps, actor)
}

impl<Rd, W, A: Allocator> Report<Rd, W, A> {
    /// How many actors the run had.
    pub fn actors(&self) -> u32
        ensures { result ≡ actors.number_in self.now House + 1 }
    {
        (self.links.len() + self.links.len() + self.workers.len() + 1) as u32
    }

    /// The receipts of an actor.
    pub(crate) fn receipts_of(&self, actor: u32) -> &[Receipt<A>]
        requires { actor < actors.number_in self.now House + 1 }
        ensures { result.now ≡ slice_index_or (actors.receipts_of self.now) actor [] }
    {
        let n = self.links.len();
        let place = actor as usize;
        if place < n {
            self.links[place].reader_receipts.as_slice()
        } else if place < n + n {
            self.links[place - n].writer_receipts.as_slice()
        } else if place < n + n + self.workers.len() {
            self.workers[place - (n + n)].as_slice()
        } else {
            self.house.as_slice()
        }
    }

    /// Whether each actor's receipts are its own steps: they fit the history, and are as many as the history has steps.
    pub fn are_all_own(&self) -> bool
        ensures { result ≡ true → AreOwn self.now }
    {
        let mut left = self.history.len();
        for actor in 0..self.actors() {
            let own = self.receipts_of(actor);
            if own.len() > left {
                return false;
            }
            if !are_fitting(self.history.as_slice(), actor, own) {
                return false;
            }
            left -= own.len();
        }
        left == 0
    }
}
