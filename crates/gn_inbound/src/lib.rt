//! The bytes that come on a link as what a router is told of them: no router, no connection and no thread stands here.
#![tactic(auto)]

mod inbound;

pub use inbound::{Given, Inbound};
