//! Room for the steps of a run that wait to be written.
#![tactic(auto)]

mod beside;
mod room;
mod signal;

pub use beside::{Following, run_beside};
pub use room::Room;
pub use signal::{Signal, Waiting};
