//! The queue between two stages of the router: jobs that were admitted wait there for a worker.
#![tactic(auto)]

mod desk;
mod home;
mod intake;
mod job;
mod laws;
mod outlet;
mod reception;
mod rule;
mod settle;
mod site;
mod stage;

pub use desk::{Desk, Unsettled};
pub use home::{IntakeHome, OutletHome};
pub use intake::Intake;
pub use job::Job;
pub use laws::queue_is_bounded;
pub use outlet::Outlet;
pub use reception::Reception;
pub use settle::{Settled, StageFault, Undrained};
pub use site::Site;
pub use stage::Stage;
