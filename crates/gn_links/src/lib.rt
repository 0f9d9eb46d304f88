//! What the threads of a run read from, write to and pass: links with their two halves, gates, and who watches a run.
#![tactic(auto)]

mod gate;
mod link;
mod memory;
mod memory_reader;
mod memory_writer;
mod place;
mod split;
mod watch;

pub use gate::{Gate, Half, Made, NoGate};
pub use link::{Link, LinkFault, LinkReader, LinkWriter};
pub use memory::MemoryLink;
pub use memory_reader::MemoryReader;
pub use memory_writer::MemoryWriter;
pub use place::Place;
pub use split::{SplitFault, SplitLink, SplitLinks, split_all};
pub use watch::Watch;
