//! What laws suppose, found of histories at run time: that one is legal, and what the laws of paths suppose further. The contracts
//! say what these laws then say.
#![tactic(auto)]

mod floods;
mod legality;
mod links;
mod moments;
mod packets;
mod pair;
mod route;

pub use floods::ends;
pub use legality::legal;
pub use links::carries;
pub use moments::carries_in_time;
pub use packets::{sent_again, was_queued};
pub use pair::{are_joined, came_over};
pub use route::routed_kind;
