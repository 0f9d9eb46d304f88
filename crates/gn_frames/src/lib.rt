//! Descriptors out of a stream of bytes that comes in pieces of any sizes.
#![tactic(auto)]

mod head;
mod laws;
mod pieces;
mod reassembler;

pub use laws::{frames_are_cut, frames_are_one, pieces_are_one_stream};
pub use reassembler::{Fed, FeedRefusal, Reassembler};
