//! What the answer to an event says of a link.

use gn_rules::ConnId;

/// What the answer to an event says of a link: the connection that it made, and whether its connection isn't live.
#[derive(Clone, Copy)]
pub(crate) struct Outcome {
    pub(crate) connection: Option<ConnId>,
    pub(crate) is_not_live: bool,
}
