//! What is known of the steps and of the receipts of a run, which nobody keeps.

ghost use Rattle.std.specs.Prelude.{◌≡◌, ◌<◌, ◌^◌, length};

use crate::unkept::Unkept;
use gn_rules::{RouterCore, Step};
use gn_trail::{Lists, Trail};
use std::alloc::Allocator;

/// The list of a router is its steps.
struct StepsOf;

impl<C: RouterCore<A>, A: Allocator + Copy> Lists<C, Step<A>> for StepsOf {
    ghost list = { λ core. C.steps core };
}

/// The list of a trail is its items.
struct ItemsOf;

impl<T> Lists<Trail<T>, T> for ItemsOf {
    ghost list = { λ trail. trail.items };
}

/// The steps of a router.
pub fn unkept_steps<C: RouterCore<A>, A: Allocator + Copy>(core: &C) -> Unkept<Step<A>>
    ensures { result.items ≡ C.steps core.now }
{
    // Its contract says that there are no more than a vector may hold.
    let _count = core.step_count();
    Unkept::of::<C, StepsOf>(core)
}

/// The items of a trail.
pub fn unkept_trail<T>(trail: &Trail<T>) -> Unkept<T>
    requires few { length trail.now.items < 2 ^ 63 }
    ensures { result.items ≡ trail.now.items }
{
    Unkept::of::<Trail<T>, ItemsOf>(trail)
}
