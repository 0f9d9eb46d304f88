//! The least parts of the tables: the keys that were seen last, and what waits for one connection.
#![tactic(auto)]

mod output;
mod seen;

pub use output::{Output, put};
pub use seen::SeenTable;
