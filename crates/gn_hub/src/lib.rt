//! What the threads of a run share: the router under one lock, the annals of its steps, and what is known of each link.
#![tactic(auto)]

mod answered;
mod asleep;
mod batch;
mod found;
mod held;
mod hub;
mod idle;
mod mark;
mod next;
mod opening;
mod progress;
mod retiring;
mod service;
mod slots;
mod waiters;
mod wakes;

pub use batch::Batch;
pub use found::FoundClosed;
pub use gn_actors::Actor;
pub use gn_shake::Role;
pub use hub::Hub;
pub use idle::Idle;
pub use mark::{Door, Mark};
pub use next::{Next, Outgoing};
pub use opening::ServiceFault;
pub use progress::Progress;
pub use retiring::{Retired, Retiring};
pub use service::Service;
