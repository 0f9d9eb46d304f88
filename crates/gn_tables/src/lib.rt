//! The tables that a router answers out of: the routes to servents, what waits for its neighbours, what is in flight, beside what it has
//! seen; and what becomes of its steps.
#![tactic(auto)]

mod counts;
mod flights;
mod forgetful;
mod keeper;
mod neighbours;
mod queueing;
mod remembering;
mod servents;
mod whole;

pub use flights::{Flight, Flights};
pub use forgetful::Forgetful;
pub use keeper::Keeper;
pub use neighbours::Neighbours;
pub use queueing::queue_one;
pub use remembering::remember;
pub use servents::ServentTable;
pub use whole::Whole;
