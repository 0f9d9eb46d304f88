//! A run that has no report, and what stands of its history.

ghost use Rattle.std.specs.Prelude.{◌≡◌, None};

use gn_rules::Step;
use gn_start::RunFault;
use std::alloc::{Allocator, Global};

/// A run that stopped at a fault.
#[derive(Debug, Drop)]
pub struct Stopped<A: Allocator = Global> {
    pub fault: RunFault,
    /// The history up to where the run stopped, whole; `None`, where it hasn't begun, or something of it isn't confirmed.
    pub history: Option<Vec<Step<A>, A>>,
}

impl<A: Allocator> Stopped<A> {
    /// A run that hasn't begun.
    pub fn before(fault: RunFault) -> Self
        ensures { (result.fault ≡ fault) × (result.history ≡ None) }
    {
        Stopped {
            fault,
            history: None,
        }
    }
}
