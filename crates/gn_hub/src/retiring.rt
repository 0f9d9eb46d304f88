//! A link that has ended, and what it left.

use crate::idle::Idle;
use gn_actors::{Actor, Named};
use gn_rules::{ConnId, Receipt};
use gn_trail::Trail;
use std::alloc::{Allocator, Global};
use std::sync::ledger::Ledger;

/// The two actors of a link that has ended, its connection, if it had one, and what says that nothing was in flight, if its writer has
/// that.
#[derive(Drop)]
pub struct Retiring<L: Ledger + Named, A: Allocator = Global> {
    pub reader: Actor<L, A>,
    pub writer: Actor<L, A>,
    pub conn: Option<ConnId>,
    pub idle: Option<Idle<L, A>>,
}

/// What such a link left: the receipts of both, whether its connection, if it had one, isn't live, and after how many steps nothing was in
/// flight, if its writer had that.
#[derive(Drop)]
pub struct Retired<A: Allocator = Global> {
    pub read: Trail<Receipt<A>>,
    pub written: Trail<Receipt<A>>,
    pub is_gone: bool,
    pub idle: Option<u64>,
}
