//! The greeting that goes before the descriptors of a link, awaited from pieces of any sizes.
#![tactic(auto)]

mod laws;
mod role;
mod shake;
mod texts;

pub use laws::{greeting_is_known, pieces_are_one_stream};
pub use role::Role;
pub use shake::{Shake, ShakeState, Shaken};
pub use texts::{consent, request};
