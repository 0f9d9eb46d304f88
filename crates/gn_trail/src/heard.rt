//! Bytes, one after another, as contracts see them.

use std::snapshot::Snapshot;

/// What was heard so far.
#[derive(Drop)]
pub(crate) enum Heard {
    Nothing,
    Then(Snapshot<Heard>, u8),
}
