//! Lists that contracts see and the program doesn't have; and streams that are read and written so that contracts see their bytes.
#![tactic(auto)]

mod heard;
mod lists;
mod streams;
mod told;
mod trail;

pub use lists::Lists;
pub use streams::{read_told, write_told};
pub use told::Told;
pub use trail::{Tells, Trail};
