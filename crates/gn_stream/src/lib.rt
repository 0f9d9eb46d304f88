//! Texts that are read a line at a time: of a history no more is held than a piece of it and the line that is at hand.
#![tactic(auto)]

mod ending;
mod entries;
mod fault;
mod header;
mod lines;
mod numbered;
mod piece;
mod steps;

pub use entries::{Due, Entry, next_entry};
pub use fault::StreamFault;
pub use header::read_history_header;
pub use lines::LineReader;
pub use numbered::next_numbered;
pub use steps::next_step;
