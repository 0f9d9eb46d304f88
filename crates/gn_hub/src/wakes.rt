//! Whom a change on the hub may have brought what they wait for.

use gn_rules::ConnId;

/// Whom a change may have brought what they wait for.
#[derive(Clone, Copy, Debug)]
pub enum Wakes {
    /// Nobody.
    Nobody,
    /// The writers of the connections that the reply queued a packet to.
    Queued,
    /// The writer of this connection.
    Writer(ConnId),
    /// Who waits at a door.
    Doors,
    /// Everybody.
    Everybody,
}
