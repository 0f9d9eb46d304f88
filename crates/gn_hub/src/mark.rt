//! What the threads of a run know of a link.

use gn_rules::ConnId;
use gn_shake::Role;

/// What a link's writer waits for.
#[derive(Clone, Copy, Debug, PartialEq, Eq)]
pub enum Door {
    /// The reader hasn't connected yet.
    Unmet,
    /// The reader has connected.
    Met(ConnId),
    /// The reader won't connect.
    Shut,
}

/// What is known of a link.
#[derive(Clone, Copy, Debug, PartialEq, Eq)]
pub struct Mark {
    pub role: Role,
    pub door: Door,
    /// Whether the reader is done.
    pub is_done: bool,
}

impl Mark {
    ghost use Rattle.std.specs.Prelude.{◌≡◌};
    ghost use Rattle.gn_hub.specs.Counts.{one_if, reads_called, reads_uncalled};
    ghost use Rattle.gn_hub.specs.HubState.{free_mark, new_mark};

    /// A link whose reader has neither connected nor ended.
    pub fn new(role: Role) -> Mark
        ensures { result ≡ new_mark role }
    {
        Mark {
            role,
            door: Door::Unmet,
            is_done: false,
        }
    }

    /// A slot without a link.
    pub fn free() -> Mark
        ensures { result ≡ free_mark }
    {
        Mark {
            role: Role::Calling,
            door: Door::Shut,
            is_done: true,
        }
    }

    /// How many readers it has that aren't done, of a link that doesn't call: one or none.
    pub(crate) fn uncalled(&self) -> usize
        ensures { result ≡ one_if (reads_uncalled self.now) }
    {
        usize::from(!self.is_done && !self.role.is_calling())
    }

    /// The same of a link that calls.
    pub(crate) fn called(&self) -> usize
        ensures { result ≡ one_if (reads_called self.now) }
    {
        usize::from(!self.is_done && self.role.is_calling())
    }
}
