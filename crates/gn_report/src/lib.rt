//! What a run of many threads did: its report, and how the report is compared with its own history; and its account.
#![tactic(auto)]

mod account;
mod closes;
mod compared;
mod dealing;
mod ends;
mod events;
mod keeping;
mod kept;
mod leaving;
mod looks;
mod own;
mod report;
mod routes;
mod seen;
mod survey;
mod telling;
mod unkeeping;
mod unkept;

pub use account::{Account, LinkAccount, LinkEnd, LinkTally};
pub use dealing::{Dealt, deal};
pub use events::conn_of;
pub use keeping::Keeping;
pub use kept::Kept;
pub use leaving::{Leaving, Telling};
pub use looks::{Looks, is_link_right};
pub use report::{LinkReport, Report};
pub use seen::{ended_is_seen, seen_is_confirmed};
pub use telling::tell;
pub use unkeeping::{unkept_steps, unkept_trail};
pub use unkept::Unkept;
