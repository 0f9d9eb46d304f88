//! The store that keeps the steps themselves and searches them for every answer.
#![tactic(auto)]

mod admitted;
mod counting;
mod flight;
mod flying;
mod live;
mod output;
mod plain_router;
mod search;
mod seen_entries;
mod servents;
mod steps;

pub use plain_router::PlainRouter;
pub use search::Search;
pub use steps::Steps;
