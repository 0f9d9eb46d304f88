//! The crates of the threads: the stage queue, the lock, the bodies of one link, runs of many threads over links in memory, and
//! what the report of a run is compared by.

mod account;
pub(crate) mod bodies;
mod failing;
mod full;
mod given_up;
mod homing;
pub(crate) mod hub;
pub(crate) mod place;
mod report;
pub(crate) mod runs;
mod service;
mod signal;
mod slots;
pub(crate) mod stage;
mod told;
