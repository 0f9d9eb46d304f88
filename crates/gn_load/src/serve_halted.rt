//! A run over TCP whose history wasn't written to its end while it went on.

use crate::serve_fault::ServeFault;
use gn_report::Unkept;
use gn_rules::Step;
use gn_service::{LinkTally, Ran};
use std::alloc::{Allocator, Global};

/// A run over TCP that stopped, or whose text couldn't be written. Nobody keeps its steps.
#[derive(Drop)]
pub struct ServeHalted<A: Allocator = Global> {
    pub fault: ServeFault,
    /// The history up to where the run ended, whole, as only proofs read it; `None`, where it hasn't begun, or something of it
    /// isn't confirmed.
    pub history: Option<Unkept<Step<A>>>,
    /// What the bodies of each link did, in the order of the links; `None`, where not all links came, where a look at the end failed,
    /// or where there is no memory for it.
    pub links: Option<Vec<LinkTally, A>>,
    /// What is remembered of the run, where it has an account: its history wasn't written whole.
    pub ran: Option<Ran<A>>,
}
