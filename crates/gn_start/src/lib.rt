//! The threads of a run: links come and go, each with a reader and a writer, beside the workers; each is joined as it ends.
#![tactic(auto)]

mod crew;
mod fault;
mod floor;
mod homing;
mod incoming;
mod limits;
mod opening;
mod over;
mod pinging;
mod promises;
mod running;
mod slots;
mod start;
mod states;
mod table;
mod trouble;

pub use fault::RunFault;
pub use floor::Floor;
pub use incoming::{Coming, Incoming, NewLink, Recall};
pub use limits::{Limited, Limits};
pub use opening::Opened;
pub use over::{Over, Stagework};
pub use running::run_links;
