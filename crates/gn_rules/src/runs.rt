//! A list of events, answered by any router.

ghost use Rattle.std.specs.Prelude.{◌≡◌, reverse, IfOk, OnErr};
ghost use Rattle.gn_rules.specs.Runs.{Ran};

use crate::event::Event;
use crate::receipt::Receipt;
use crate::refusal::Refusal;
use crate::router_core::RouterCore;
use std::alloc::{AllocError, Allocator};

/// Gives a router the events in order, as actor 0, and answers each one's result. An `Err` is out of memory for the list
/// of results: no event was applied.
pub fn run_events<A: Allocator + Copy, C: RouterCore<A>>(
    alloc: A,
    core: &mut C,
    events: &[Event<A>],
) -> Result<Vec<Result<Receipt<A>, Refusal>, A>, AllocError>
    ensures ran { IfOk result (λ results.
        Ran (C.settings core.old) (reverse (C.steps core.old)) events.now results.items (reverse (C.steps core.new))) }
    ensures err { OnErr result (C.steps core.new ≡ C.steps core.old) }
    ensures settings { C.settings core.new ≡ C.settings core.old }
{
    let mut results = Vec::with_capacity(alloc, events.len())?;
    for event in events {
        let result = core.apply(0, event);
        results.push(result).unwrap();
    }
    Ok(results)
}
