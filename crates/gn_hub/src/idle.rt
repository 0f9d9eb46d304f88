//! What says that nothing was in flight.

ghost use Rattle.std.specs.Prelude.{◌≡◌, ◌==◌, true, length, reverse};
ghost use Rattle.gn_rules.specs.Flight.{flying};

use gn_actors::{Beginning, Named};
use gn_rules::Step;
use std::alloc::{Allocator, Global};
use std::marker::Model;
use std::sync::ledger::Ledger;

/// Says that nothing was in flight after so many steps. Only the hub makes one, so that who has it has looked.
pub struct Idle<L: Ledger + Named, A: Allocator = Global> {
    at: u64,
    seen: Beginning<Step<A>, L>,
}

impl<L: Ledger + Named, A: Allocator> Drop for Idle<L, A> {
    fn drop(self) {
        let Idle { at: _, seen: _ } = self;
    }
}

impl<L: Ledger + Named, A: Allocator> Model for Idle<L, A> {
    ghost use Rattle.std.specs.Prelude.{◌≡◌, ◌==◌, ℕ, true, length, reverse};
    ghost use Rattle.gn_rules.specs.Flight.{flying};

    ghost Value = { ℕ };

    ghost view = { λ idle. idle.at };

    ghost invariant = { λ idle. (length idle.seen.items ≡ idle.at)
        × ((length (flying (reverse idle.seen.items)) == 0) ≡ true) };
}

impl<L: Ledger + Named, A: Allocator> Idle<L, A> {
    /// After these steps, which are so many.
    pub(crate) fn after(at: u64, seen: Beginning<Step<A>, L>) -> Self
        requires at { length seen.items ≡ at }
        requires idle { (length (flying (reverse seen.items)) == 0) ≡ true }
        ensures { result ≡ at }
    {
        Idle { at, seen }
    }

    /// After how many steps.
    pub fn at(&self) -> u64
        ensures { result ≡ self.now }
    {
        self.at
    }

    /// Those steps.
    pub(crate) fn into_seen(self) -> Beginning<Step<A>, L>
        ensures at { length result.items ≡ self }
        ensures idle { (length (flying (reverse result.items)) == 0) ≡ true }
    {
        let Idle { at: _, seen } = self;
        seen
    }
}
