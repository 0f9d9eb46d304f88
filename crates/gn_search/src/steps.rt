//! What holds the steps that are searched.

ghost use Rattle.std.specs.Prelude.{◌≡◌, List};
ghost use Rattle.gn_rules.specs.declared.receipt.Step.{Step};

use gn_rules::Step;
use std::alloc::Allocator;

/// What holds steps, in order.
pub trait Steps<A: Allocator> {
    /// The steps.
    ghost items: { Self → List (Step A) };

    /// The steps.
    fn as_slice(&self) -> &[Step<A>]
        ensures { result.now ≡ items self.now };
}

impl<A: Allocator> Steps<A> for Vec<Step<A>, A> {
    ghost items = { λ steps. steps.items };

    fn as_slice(&self) -> &[Step<A>] {
        self
    }
}

impl<'a, A: Allocator> Steps<A> for &'a [Step<A>] {
    ghost items = { λ steps. steps.now };

    fn as_slice(&self) -> &[Step<A>] {
        self
    }
}
