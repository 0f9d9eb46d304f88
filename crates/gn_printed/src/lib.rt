//! The text of a history, as it is written in blocks: a step's line, and how the text ends.
#![tactic(auto)]

mod ending;
mod printed;

pub use ending::{Waiting, finish_history, shut_at_fault, write_end};
pub use printed::{PrintFault, print_step};
