//! Why a line isn't read.

use gn_text::{CaptureRefusal, Cause};
use std::alloc::{AllocError, AllocFailed};

/// Why a line isn't read, before its number is known.
#[derive(Clone, Copy)]
pub(crate) enum LineRefusal {
    Fault(Cause),
    NoMemory,
}

impl LineRefusal {
    ghost use Rattle.std.specs.Prelude.{◌≡◌};
    ghost use Rattle.gn_capture.specs.Outcomes.{refusal_at};

    /// The refusal, with the number of its line.
    pub(crate) fn at(self, line: u64) -> CaptureRefusal
        ensures { result ≡ refusal_at line self }
    {
        match self {
            LineRefusal::Fault(cause) => CaptureRefusal::at(line, cause),
            LineRefusal::NoMemory => CaptureRefusal::NoMemory,
        }
    }
}

impl From<AllocError> for LineRefusal {
    ghost use Rattle.std.specs.Prelude.{◌≡◌};
    ghost use Rattle.gn_capture.specs.declared.refusal.LineRefusal.TheVariants.{NoMemory};

    ghost from_gives = { λ _ refusal. refusal ≡ NoMemory };

    fn from(_error: AllocError) -> LineRefusal {
        LineRefusal::NoMemory
    }
}

impl<T: Drop> From<AllocFailed<T>> for LineRefusal {
    ghost use Rattle.std.specs.Prelude.{◌≡◌};
    ghost use Rattle.gn_capture.specs.declared.refusal.LineRefusal.TheVariants.{NoMemory};

    ghost from_gives = { λ _ refusal. refusal ≡ NoMemory };

    fn from(_error: AllocFailed<T>) -> LineRefusal {
        LineRefusal::NoMemory
    }
}
