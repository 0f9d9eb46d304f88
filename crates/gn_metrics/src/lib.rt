//! The counts of a history while it is written, and a page of them, which is asked for over HTTP.
#![tactic(auto)]

mod desk;
mod drawing;
mod laws;
mod look;
mod metered;
mod meters;
mod page;
mod patient;
mod scrape;
mod tally;

pub use desk::Desk;
pub use laws::{comments_count_nothing, history_is_counted};
pub use look::{COUNTERS, Look};
pub use metered::Metered;
pub use meters::Meters;
pub use page::push_page;
