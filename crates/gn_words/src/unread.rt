//! Why options stand for no request.

ghost use Rattle.std.specs.Prelude.{◌≡◌};
ghost use Rattle.gn_words.specs.declared.unread.Unread.TheVariants.{NoMemory};

use std::alloc::{AllocError, AllocFailed};

/// Why options stand for no request.
#[derive(Clone, Copy)]
pub enum Unread {
    /// A value isn't within its limits: what the option takes, in words.
    Mistake(&'static str),
    /// Out of memory.
    NoMemory,
}

impl From<AllocError> for Unread {
    ghost from_gives = { λ _ e. e ≡ NoMemory };

    fn from(_e: AllocError) -> Unread {
        Unread::NoMemory
    }
}

impl<T: Drop> From<AllocFailed<T>> for Unread {
    ghost from_gives = { λ _ e. e ≡ NoMemory };

    fn from(_e: AllocFailed<T>) -> Unread {
        Unread::NoMemory
    }
}
