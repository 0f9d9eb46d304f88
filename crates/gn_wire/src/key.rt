//! What a router remembers a descriptor by.

use crate::kind::{Guid, Kind};

/// A kind with an ID: two descriptors of one key count as the same one.
#[derive(Clone, Copy, Debug, PartialEq, Eq, Hash)]
pub struct Key {
    pub kind: Kind,
    pub id: Guid,
}
