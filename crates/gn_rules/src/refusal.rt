//! Why an event made no step.

ghost use Rattle.std.specs.Prelude.{◌≡◌};

use std::alloc::{AllocError, AllocFailed};

/// Why an event made no step. A refusal changes nothing.
#[derive(Clone, Copy, Debug, PartialEq, Eq)]
pub enum Refusal {
    /// The history has as many steps as it may have.
    HistoryFull,
    /// The connection isn't live.
    NotLive,
    /// The ticket isn't in flight.
    NoTicket,
    /// The checked descriptor isn't the one that was admitted.
    Strange,
    /// No packet waits for the connection.
    NothingWaiting,
    /// Not a Ping or Query that the local servent may send.
    BadOrigin,
    /// The local servent's descriptor has a key that is remembered.
    Remembered,
    /// No memory was given.
    NoMemory,
}

impl<T: Drop> From<AllocFailed<T>> for Refusal {
    ghost use Rattle.gn_rules.specs.declared.refusal.Refusal.TheVariants.{NoMemory};

    ghost from_gives = { λ _ e. e ≡ NoMemory };

    fn from(_e: AllocFailed<T>) -> Refusal {
        Refusal::NoMemory
    }
}

impl From<AllocError> for Refusal {
    ghost use Rattle.gn_rules.specs.declared.refusal.Refusal.TheVariants.{NoMemory};

    ghost from_gives = { λ _ e. e ≡ NoMemory };

    fn from(_e: AllocError) -> Refusal {
        Refusal::NoMemory
    }
}
