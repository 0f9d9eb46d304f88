//! What becomes of the steps of a run while it goes on.

ghost use Rattle.std.specs.Prelude.{◌≡◌, [], List};
ghost use Rattle.gn_rules.specs.declared.receipt.Step.{Step};

use gn_room::{Following, Room};
use gn_rules::{Historian, RouterCore};
use std::alloc::Allocator;
use std::sync::Wait;

/// What becomes of the steps of a run while it goes on: its router keeps them, or gives them to somebody who runs beside it.
pub trait Course<C: RouterCore<A>, A: Allocator + Copy>: Following {
    /// Whether somebody takes the steps, in a thread of its own.
    const IS_BESIDE: bool;

    /// What is left.
    type Rest;

    /// What may be left of who took the steps, once these were made.
    ghost leaves: { Self.Followed → List (Step A) → Self.Rest → Type 0 };

    /// The room for the steps of the run.
    fn room(&self) -> Room;

    /// What is left, with the router of the run.
    fn end(ran: Self::Followed, core: C) -> Self::Rest
        ensures { leaves ran (C.steps core) result };

    /// What is left where no run began.
    fn give_up(self) -> Self::Rest
        ensures { (ran : Self.Followed) × Self.follows self ran × leaves ran [] result };
}

/// The router keeps the steps. It is what is left, where a run began.
#[derive(Clone, Copy, Debug)]
pub struct InMemory;

impl Following for InMemory {
    ghost use Rattle.std.specs.Prelude.{⊤};

    type Followed = ();

    ghost follows = { λ _ _. ⊤ };

    fn follow<R: Wait>(self, _rt: &R, _room: &Room) {}
}

impl<C: Historian<A> + Drop, A: Allocator + Copy> Course<C, A> for InMemory {
    ghost use Rattle.std.specs.Prelude.{◌≡◌};
    ghost use Rattle.gn_threads.specs.Courses.{steps_left};

    const IS_BESIDE: bool = false;

    type Rest = Option<C>;

    ghost leaves = { λ _ steps rest. steps ≡ steps_left C.steps rest };

    fn room(&self) -> Room {
        Room::endless()
    }

    fn end(_ran: (), core: C) -> Option<C> {
        Some(core)
    }

    fn give_up(self) -> Option<C> {
        None
    }
}
