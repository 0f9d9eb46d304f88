//! What the tests of runs share: what a run left, links that are read in step, workers that route in step, and many Pings.
#![tactic(auto)]

mod in_step;
mod left;
mod shared;

pub use in_step::{Meeting, PacedLink, have_met};
pub use left::{Left, READER, WRITER, a_report, left_of};
pub use shared::{are_even, pings};
