//! A history that is written while its router runs: a thread of its own takes the steps out of a ring, and writes their lines in
//! blocks.
#![tactic(auto)]

mod ending;
mod printed;
mod scribe;

pub use printed::print_end;
pub use scribe::Scribe;
