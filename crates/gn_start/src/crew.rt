//! The workers of a run.

ghost use Rattle.std.specs.Prelude.{◌≡◌, ◌+◌, ◌<◌, ◌≤◌, ◌^◌, ◌++◌, ◌∷◌, [], ℕ, None, false, true, length, slice_index_or, vec_len, IfSome};
ghost use Rattle.gn_actors.specs.Registry.{registry_state, with_one_out};
ghost use Rattle.gn_actors.specs.Who.{number_of};
ghost use Rattle.gn_actors.specs.declared.who.Who.TheVariants as who;
ghost use Rattle.gn_rules.specs.Limits.{most_workers};
ghost use Rattle.gn_start.specs.Crews.{AreWorked, IsCrewOf};
ghost use Rattle.gn_start.specs.Faults.{IsFaultOf};
ghost use Rattle.gn_start.specs.Numbers.{numbers_of, workers_of};

use crate::fault::RunFault;
use crate::homing::fault_in;
use crate::limits::Limited;
use crate::promises::{WorkerHandle, WorkerStart};
use crate::start::Starter;
use crate::trouble::either;
use gn_actors::{Named, Numbering, Registry, Who};
use gn_bodies::WorkerDone;
use gn_hub::Actor;
use gn_links::Gate;
use gn_rules::RouterCore;
use gn_stage::{Outlet, OutletHome, Site};
use std::alloc::{Allocator, Global};
use std::sync::Wait;
use std::sync::ledger::Ledger;
use std::thread::Threads;

/// The workers of a run whose threads run, and whether one couldn't be started.
pub(crate) struct Crew<B: Site + Ledger + Named, A: Allocator = Global> {
    pub handles: Vec<WorkerHandle<B, A>, A>,
    pub is_lost: bool,
}

impl<B: Site + Ledger + Named, A: Allocator> Drop for Crew<B, A> {
    fn drop(self) {
        let Crew {
            handles: _,
            is_lost: _,
        } = self;
    }
}

/// What they leave once they are joined: their actors and their ends of the stage, whether there was no memory for these, and the fault of
/// the run, where one of them ended so.
#[derive(Drop)]
pub(crate) struct Worked<B: Site + Ledger + Named, A: Allocator = Global> {
    pub actors: Vec<Actor<B, A>, A>,
    pub outlets: Vec<OutletHome<B, A>, A>,
    pub is_lost: bool,
    pub fault: Option<RunFault>,
}

impl<B: Site + Ledger + Named, A: Allocator> Worked<B, A> {
    /// Nobody is joined yet.
    fn none(alloc: A, is_lost: bool) -> Self
    where
        A: Copy,
        ensures { (result.actors.items ≡ []) × (result.is_lost ≡ is_lost) × (result.fault ≡ None) }
    {
        Worked {
            actors: Vec::new(alloc),
            outlets: Vec::new(alloc),
            is_lost,
            fault: None,
        }
    }

    /// One more is joined.
    fn take(&mut self, done: WorkerDone<B, A>)
        ensures kept { self.new.is_lost ≡ false → (self.old.is_lost ≡ false)
            × (self.new.actors.items ≡ self.old.actors.items ++ done.actor ∷ []) }
        ensures fault { (links workers : ℕ) → IfSome self.old.fault (λ fault. IsFaultOf links workers fault)
            → done.actor.number < links + links + workers + 1
            → IfSome self.new.fault (λ fault. IsFaultOf links workers fault) }
    {
        let WorkerDone { actor, home, end } = done;
        self.fault = either(self.fault, fault_in(&end, actor.number()));
        let is_kept = self.actors.push(actor).is_ok() & self.outlets.push(home).is_ok();
        self.is_lost |= !is_kept;
    }
}

impl<B: Site + Ledger + Limited + Named, A: Allocator + Copy> Crew<B, A> {
    /// Joins all of them.
    pub(crate) fn join<R: Threads>(self, rt: &R, alloc: A) -> Worked<B, A>
        ensures worked { (first many : ℕ) → IsCrewOf first many self → AreWorked first many result }
        ensures fault { (first many links workers : ℕ) → IsCrewOf first many self
            → first + many ≤ links + links + workers + 1
            → IfSome result.fault (λ fault. IsFaultOf links workers fault) }
    {
        let Crew { handles, is_lost } = self;
        let mut worked = Worked::none(alloc, is_lost);
        for handle in handles {
            worked.take(handle.join(rt));
        }
        worked
    }
}

impl<
    's,
    E: 's,
    C: RouterCore<A> + Drop + Send + 's,
    B: Site + Ledger + Limited + Named + Send + Sync + 's,
    G: Gate + Sync + 's,
    A: Allocator + Copy + Send + Sync + 's,
    R: Threads + Wait + Sync + 's,
> Starter<'s, E, C, B, G, A, R> {
    /// Starts this worker with its actor. None where no thread can be made.
    fn start_next(
        &self,
        registry: &mut Registry<B, A>,
        numbering: Numbering,
        worker: u32,
        outlet: Outlet<B, A>,
    ) -> Option<WorkerHandle<B, A>>
        requires numbers { length registry.old.lists ≡ numbers_of numbering 0 }
        requires acts { worker < workers_of numbering }
        requires none { slice_index_or registry.old.lists (number_of numbering (who.Worker worker)) [] ≡ [] }
        requires room { registry.old.out + 1 < 2 ^ 32 }
        ensures registry { registry.new ≡ with_one_out registry.old }
        ensures number { IfSome result (λ h. h.promise.start.value.actor.number
            ≡ number_of numbering (who.Worker worker)) }
    {
        // It shows that all numbers are of 32 bits.
        let _many = registry.many();
        let actor = registry.send(numbering.number_of(Who::Worker(worker)));
        self.start_thread(WorkerStart {
            actor,
            worker,
            outlet,
        })
    }

    /// Starts all workers, each with an outlet.
    pub(crate) fn start_workers(
        &self,
        registry: &mut Registry<B, A>,
        numbering: Numbering,
        outlets: Vec<Outlet<B, A>, A>,
    ) -> Crew<B, A>
        requires few { (vec_len outlets ≡ workers_of numbering) × (vec_len outlets ≤ most_workers) }
        requires numbers { length registry.old.lists ≡ numbers_of numbering 0 }
        requires none { (n : ℕ) → slice_index_or registry.old.lists n [] ≡ [] }
        requires home { registry.old.out ≡ 0 }
        ensures registry { registry.new ≡ registry_state registry.old.lists registry.new.out registry.old.seen }
        ensures out { registry.new.out ≤ vec_len outlets }
        ensures crew { IsCrewOf (number_of numbering (who.Worker 0)) (vec_len outlets) result }
    {
        let alloc = self.floor.alloc;
        let Ok(mut handles) = Vec::with_capacity(alloc, outlets.len()) else {
            return Crew {
                handles: Vec::new(alloc),
                is_lost: true,
            };
        };
        let mut worker = 0u32;
        for outlet in outlets {
            let Some(handle) = self.start_next(registry, numbering, worker, outlet) else {
                return Crew {
                    handles,
                    is_lost: true,
                };
            };
            handles.push_reserved(handle);
            worker += 1;
        }
        Crew {
            handles,
            is_lost: false,
        }
    }
}
