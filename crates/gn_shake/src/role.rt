//! The role of a link in the greeting.

use crate::texts::{consent, request};

/// How a link begins (Gnutella v0.4, "Protocol definition").
#[derive(Clone, Copy, Debug, PartialEq, Eq)]
pub enum Role {
    /// The router is called: it awaits the connection request.
    Accepting,
    /// The router calls: it sends the connection request, and awaits the consent.
    Calling,
    /// Nobody sends a greeting.
    Plain,
}

impl Role {
    ghost use Rattle.std.specs.Prelude.{◌≡◌};
    ghost use Rattle.gn_shake.specs.Greeting.{greeting_of, is_awaited, is_calling};

    /// Whether the link calls.
    pub fn is_calling(self) -> bool
        ensures { result ≡ is_calling self }
    {
        matches!(self, Role::Calling)
    }

    /// Whether a run waits for the link's reader, where all links call or not: for that of a link which doesn't call, and where
    /// all call for each.
    pub fn is_awaited(self, all_call: bool) -> bool
        ensures { result ≡ is_awaited all_call self }
    {
        all_call || !self.is_calling()
    }

    /// The text that the link awaits before the descriptors: empty on a plain link.
    pub fn greeting(self) -> &'static [u8]
        ensures { result.now ≡ greeting_of self }
    {
        match self {
            Role::Accepting => request(),
            Role::Calling => consent(),
            Role::Plain => &[],
        }
    }
}
