//! The steps that a run goes on with, which an earlier one made.

ghost use Rattle.std.specs.Prelude.{◌≡◌, ℕ, Bool, None, false, true, IfErr, IfOk};
ghost use Rattle.gn_start.specs.Faults.{IsArrivingFault};

use gn_rules::{Receipt, Refusal};
use gn_start::{Recall, RunFault};
use std::alloc::Allocator;

/// The steps of a history that a run goes on with: its house makes them again, before any link comes.
pub trait Past: Drop {
    /// Whether there are any.
    ghost recalls: { Self → Bool };

    /// The next event that the house makes for them; `None`: there is none, or no more. What an `Err` ends the run with gives way to what this
    /// one knows.
    fn recall<A: Allocator + Copy>(&mut self, alloc: A) -> Result<Option<Recall<A>>, RunFault>
        ensures none { recalls self.old ≡ false → IfOk result (λ recall. recall ≡ None) }
        ensures same { recalls self.new ≡ recalls self.old }
        ensures fault { IfErr result (λ fault. (links workers : ℕ) → IsArrivingFault true links workers fault) };

    /// Learns what the rules answered to the event that was given last.
    fn recalled<A: Allocator + Copy>(
        &mut self,
        recall: Recall<A>,
        answer: Result<Receipt<A>, Refusal>,
    ) -> Result<(), RunFault>
        ensures same { recalls self.new ≡ recalls self.old }
        ensures fault { IfErr result (λ fault. (links workers : ℕ) → IsArrivingFault true links workers fault) };
}

/// There are no such steps.
#[derive(Clone, Copy, Debug)]
pub struct NoPast;

impl Past for NoPast {
    ghost recalls = { λ _. false };

    fn recall<A: Allocator + Copy>(&mut self, _alloc: A) -> Result<Option<Recall<A>>, RunFault> {
        Ok(None)
    }

    fn recalled<A: Allocator + Copy>(
        &mut self,
        recall: Recall<A>,
        answer: Result<Receipt<A>, Refusal>,
    ) -> Result<(), RunFault> {
        drop(recall);
        drop(answer);
        Ok(())
    }
}

/// The steps that a run goes on with, how many its house has made for them, and how many it may make in all.
#[derive(Drop)]
pub(crate) struct Recalling<P> {
    pub past: P,
    made: u32,
    most: u32,
}

impl<P> Recalling<P> {
    /// None of these was made yet, in a run of so many steps.
    pub(crate) fn new(past: P, most: u32) -> Self
        ensures { result.past ≡ past }
    {
        Recalling {
            past,
            made: 0,
            most,
        }
    }

    /// One more was made.
    pub(crate) fn add(&mut self)
        ensures { self.new.past ≡ self.old.past }
    {
        self.made = self.made.saturating_add(1);
    }

    /// How many steps are left to the run, where any were made.
    pub(crate) fn left(&self) -> Option<u32> {
        if self.made == 0 {
            return None;
        }
        Some(self.most.saturating_sub(self.made))
    }
}
