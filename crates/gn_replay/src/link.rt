//! What a replay keeps of a link.

use gn_inbound::Inbound;
use gn_rules::ConnId;
use std::alloc::{Allocator, Global};

/// What is kept of a link: where its bytes stand, and its connection once it has one.
#[derive(Drop)]
pub enum Link<A: Allocator = Global> {
    Ended,
    Greeting(Inbound<A>),
    Joined {
        connection: ConnId,
        inbound: Inbound<A>,
    },
}
