//! Captures replayed on any router, histories audited by one, and why either stopped.
#![tactic(auto)]

mod audits;
mod explanation;
mod fault;
mod flights;
mod form;
mod given;
mod histories;
mod judge;
mod judged;
mod judgement;
mod laws;
mod line;
mod link;
mod outcome;
mod piece;
mod playing;
mod replays;
mod run;
mod saying;

pub use audits::{audit, audit_explained, audit_unfinished};
pub use fault::ReplayFault;
pub use histories::{history_heading, replay_history};
pub use laws::replay_text_is_one;
pub use replays::{Exit, replay};
pub use run::{Replayed, play};
