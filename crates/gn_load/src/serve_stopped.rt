//! A run over TCP that ended at a fault, and what stands of its history.

use crate::serve_fault::ServeFault;
use gn_rules::Step;
use gn_service::Ran;
use std::alloc::{Allocator, Global};

/// A run over TCP that has no history that was written whole.
#[derive(Drop)]
pub struct ServeStopped<A: Allocator = Global> {
    pub fault: ServeFault,
    /// The history up to where the run ended, whole; `None`, where it hasn't begun, or something of it isn't confirmed.
    pub history: Option<Vec<Step<A>, A>>,
    /// What is remembered of the run, where it has a report: its history wasn't written whole.
    pub ran: Option<Ran<A>>,
}
