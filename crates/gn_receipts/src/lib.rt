//! The receipts of a history's actors, which nobody kept: they are made of its steps.
#![tactic(auto)]

mod made;

pub use made::receipts_by_actor;
