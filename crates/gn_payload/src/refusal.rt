//! Why a payload isn't written.

use std::alloc::AllocError;

/// Why a payload isn't written; the first of this list that applies.
#[derive(Clone, Copy, Debug, PartialEq, Eq)]
pub enum WriteRefusal {
    /// A zero byte stands in a text, and would end it.
    ZeroInText,
    /// A Query Hit has more than 255 results.
    TooManyHits,
    /// The payload would have more than 65,536 bytes.
    TooLong,
    /// The vector needed more room and didn't get it.
    NoMemory,
}

impl From<AllocError> for WriteRefusal {
    ghost use Rattle.std.specs.Prelude.{◌≡◌};
    ghost use Rattle.gn_payload.specs.declared.refusal.WriteRefusal.TheVariants.{NoMemory};

    ghost from_gives = { λ _ e. e ≡ NoMemory };

    fn from(_: AllocError) -> Self {
        WriteRefusal::NoMemory
    }
}
