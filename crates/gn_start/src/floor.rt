//! What all threads of a run are started with.

use crate::limits::{Limited, Limits};
use gn_actors::Named;
use gn_hub::Service;
use gn_room::Signal;
use gn_rules::RouterCore;
use std::alloc::Allocator;
use std::sync::ledger::Ledger;

/// What all threads of a run are started with: the lock, the gate that they pass, the limits of their links, and the signal by which
/// they say that they have ended.
#[derive(Drop)]
pub struct Floor<
    's,
    C: RouterCore<A> + Drop,
    B: Ledger + Limited + Named,
    G,
    A: Allocator + Copy,
    R,
> {
    pub rt: &'s R,
    pub alloc: A,
    pub service: &'s Service<C, B, A>,
    pub gate: &'s G,
    pub limits: &'s Limits<B>,
    pub signal: &'s Signal,
}
