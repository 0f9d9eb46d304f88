//! Numbers in decimal digits, those that the `config` line of a text has in each version, and the names of closed sets.
#![tactic(auto)]

mod causes;
mod counters;
mod events;
mod kinds;
mod laws;
mod named;
mod numbers;
mod places;
mod refusals;
mod titles;
mod version;
mod words;

pub use causes::{Cause, cause_name};
pub use counters::{counter_name, counter_named, reason_name, reason_named};
pub use events::{EventWord, event_name, event_named};
pub use kinds::{KindNames, kind_names};
pub use laws::names_are_read;
pub use numbers::{number, number_u8, number_u16};
pub use places::{place_name, place_named};
pub use refusals::refusal_name;
pub use titles::{Text, read_version, title};
pub use version::{Later, Version, least_version, read_later};
pub use words::{LineWord, line_word_named};
