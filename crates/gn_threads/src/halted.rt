//! A run that has no account, and what is known of it.

ghost use Rattle.std.specs.Prelude.{◌≡◌, None};

use gn_report::{LinkTally, Unkept};
use gn_rules::Step;
use gn_start::RunFault;
use std::alloc::{Allocator, Global};

/// A run that stopped at a fault, and whose steps nobody keeps.
#[derive(Drop)]
pub struct Halted<A: Allocator = Global> {
    pub fault: RunFault,
    /// The history up to where the run stopped, whole, as only proofs read it; `None`, where it hasn't begun, or something of it
    /// isn't confirmed.
    pub history: Option<Unkept<Step<A>>>,
    /// What each link's bodies did, in the order of the links; `None`, where not all links came, where a look at the end failed, or
    /// where there is no memory for it.
    pub links: Option<Vec<LinkTally, A>>,
}

impl<A: Allocator> Halted<A> {
    /// A run that hasn't begun.
    pub fn before(fault: RunFault) -> Self
        ensures { (result.fault ≡ fault) × (result.history ≡ None) × (result.links ≡ None) }
    {
        Halted {
            fault,
            history: None,
            links: None,
        }
    }
}
