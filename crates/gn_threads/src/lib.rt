//! The run: a thread for the reader and the writer of each link and for each worker, until all links are done; and its report
//! or account.
#![tactic(auto)]

mod arrivals;
mod arriving;
mod asked;
mod course;
mod ending;
mod entering;
mod finishing;
mod halted;
mod homecoming;
mod house;
mod in_order;
mod open_account;
mod open_ending;
mod opening;
mod reporting;
mod runs;
mod settling;
mod stopped;

pub use arrivals::Arrivals;
pub use arriving::{run_arriving, run_arriving_by, run_arriving_kept};
pub use asked::{Asked, Coming, Routing};
pub use course::{Course, InMemory};
pub use entering::{Entering, run_open};
pub use gn_start::RunFault;
pub use halted::Halted;
pub use open_account::OpenAccount;
pub use reporting::{stopped_by, tell};
pub use runs::{run, run_by, runs_add_up};
pub use stopped::Stopped;
