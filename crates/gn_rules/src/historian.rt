//! A router that keeps its steps.

ghost use Rattle.std.specs.Prelude.{◌≡◌, reverse};
ghost use Rattle.gn_rules.specs.Answer.{IsLegal};

use crate::fresh::FreshRouter;
use crate::receipt::Step;
use std::alloc::Allocator;

/// A router that keeps its steps.
pub trait Historian<A: Allocator + Copy>: FreshRouter<A> {
    /// The steps, in order.
    fn history(&self) -> &[Step<A>]
        ensures value { result.now ≡ Self.steps self.now };

    /// The steps, in order, for keeps.
    fn into_history(self) -> Vec<Step<A>, A>
        ensures value { result.items ≡ Self.steps self }
        ensures legal { IsLegal (Self.settings self) (reverse (Self.steps self)) };
}
