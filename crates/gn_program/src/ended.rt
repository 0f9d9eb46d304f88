//! How a command ended.

use gn_service::Ran;

/// How a command ended.
#[derive(Drop)]
pub struct Ended {
    /// The status to end with.
    pub status: u8,
    /// What is remembered of the run of a serve, where it has a report. Contracts alone see it.
    pub ran: Option<Ran>,
}
