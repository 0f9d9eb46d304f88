//! Histories whose actors have other numbers: what is said of them is what the rules say of the events and replies.
#![tactic(auto)]

mod moved;
mod renumbered;

pub use moved::{moved_is_alike, moved_is_legal};
pub use renumbered::{renumbered_is_only, renumbered_is_own};
