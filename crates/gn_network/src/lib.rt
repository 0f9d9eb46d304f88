//! Runs that sockets join are a network, of which the laws of paths hold.
#![tactic(auto)]

mod runs;

pub use runs::runs_make_a_network;
