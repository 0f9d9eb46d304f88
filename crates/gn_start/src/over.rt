//! What a run leaves once its threads are joined.

use crate::fault::RunFault;
use gn_actors::{Actor, Named, Registry};
use gn_report::{LinkEnd, Looks};
use gn_stage::{OutletHome, Reception, Site};
use gn_trail::Trail;
use std::alloc::{Allocator, Global};
use std::sync::ledger::Ledger;

/// What a run leaves once its links are done, all its threads are joined and the actors of its links are home: who keeps what the links
/// did, and what proofs alone read of it; the registry, the workers' actors, and what was counted; and why it stopped, where it did.
#[derive(Drop)]
pub struct Over<Rd, W, K, B: Ledger + Named, A: Allocator = Global> {
    /// How many links came.
    pub came: u32,
    pub keeper: K,
    pub links: Trail<LinkEnd<Rd, W, A>>,
    pub registry: Registry<B, A>,
    pub workers: Vec<Actor<B, A>, A>,
    pub looks: Looks,
    pub fault: Option<RunFault>,
    /// A thread or memory was refused: nothing is known of its links.
    pub is_lost: bool,
}

/// What is left of its stage.
#[derive(Drop)]
pub struct Stagework<B: Site, A: Allocator = Global> {
    pub reception: Reception<B, A>,
    pub outlets: Vec<OutletHome<B, A>, A>,
}
