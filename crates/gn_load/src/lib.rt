//! The two front doors of a run, each of which writes its history: over the links of a capture, and over TCP.
#![tactic(auto)]

mod fault;
mod fresh;
mod journalled;
mod journalled_any;
mod journalled_load;
mod link_input;
mod links;
mod loads;
mod printed;
mod serve_fault;
mod serve_halted;
mod serve_stopped;
mod served;
mod taken;
mod writing;

pub use fault::LoadFault;
pub use gn_printed::PrintFault;
pub use journalled::serve_journalled;
pub use journalled_any::{serve_any_journalled, serve_past_journalled};
pub use journalled_load::{Loading, load_journalled};
pub use links::links_of;
pub use loads::{load, load_watched};
pub use printed::print_history;
pub use serve_fault::ServeFault;
pub use serve_halted::ServeHalted;
pub use serve_stopped::ServeStopped;
pub use served::{serve_history, serve_history_kept};
pub use taken::{Taken, Taking, serve_resumed, serve_taken};
