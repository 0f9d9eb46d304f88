//! Whether steps are the same.

use gn_rules::{Step, is_same_event, is_same_reply};
use std::alloc::Allocator;

/// Whether two steps are the same.
pub fn is_same_step<A: Allocator>(step: &Step<A>, other: &Step<A>) -> bool {
    step.actor == other.actor
        && is_same_event(&step.event, &other.event)
        && is_same_reply(&step.reply, &other.reply)
}

/// Whether two histories are the same.
pub fn are_same<A: Allocator>(steps: &[Step<A>], others: &[Step<A>]) -> bool {
    if steps.len() != others.len() {
        return false;
    }
    for (step, other) in steps.iter().zip(others) {
        if !is_same_step(step, other) {
            return false;
        }
    }
    true
}
