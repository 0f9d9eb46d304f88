//! What says that a connection was found closed.

use gn_rules::ConnId;
use std::marker::Model;

/// Says that a connection was not live when an actor was to close it. Only the hub makes one, so that who has it has asked.
#[derive(Debug, Drop)]
pub struct FoundClosed {
    connection: ConnId,
}

impl Model for FoundClosed {
    ghost use Rattle.std.specs.Prelude.{ℕ};

    ghost Value = { ℕ };

    ghost view = { λ found. found.connection };
}

impl FoundClosed {
    ghost use Rattle.std.specs.Prelude.{◌≡◌};

    /// Of this connection.
    pub(crate) fn of(connection: ConnId) -> FoundClosed
        ensures { result ≡ connection }
    {
        FoundClosed { connection }
    }

    /// The connection.
    pub fn connection(&self) -> ConnId
        ensures { result ≡ self.now }
    {
        self.connection
    }
}
