//! Steps that a router is given for keeps.

ghost use Rattle.std.specs.Prelude.{◌≡◌, ◌∷◌, ◌++◌, [], Ok, reverse, OnOk};
ghost use Rattle.gn_rules.specs.Answer.{answer};

use gn_rules::{RouterCore, Step};
use std::alloc::{AllocError, Allocator};

/// Adds a step whose reply is the rules' answer. An `Err` is out of memory.
pub(crate) fn add<A: Allocator + Copy, C: RouterCore<A>>(
    core: &mut C,
    step: Step<A>,
) -> Result<(), AllocError>
    requires { answer (C.settings core.old) (reverse (C.steps core.old)) step.event ≡ Ok step.reply }
    ensures step { OnOk result (C.steps core.new ≡ C.steps core.old ++ step ∷ []) }
    ensures settings { C.settings core.new ≡ C.settings core.old }
{
    let mut step = step;
    core.add(&mut step)
}
