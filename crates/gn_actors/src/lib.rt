//! Who calls the router of a run, and what all of them did: each step is known where it is made, and no memory is kept of it.
#![tactic(auto)]

mod actor;
mod annals;
mod growing;
mod registry;
mod tally;
mod who;

pub use actor::Actor;
pub use annals::{Annals, Unopened};
pub use growing::{Beginning, Growing, Named, Unnamed};
pub use registry::Registry;
pub use tally::Tally;
pub use who::{Numbering, Who, numbers_are_apart};
