//! What is wrong with a text.

ghost use Rattle.std.specs.Prelude.{◌≡◌};

use gn_numbers::Cause;
use std::alloc::{AllocError, AllocFailed};

/// The first line of a text that something is wrong with. Lines count from 1, with those that are skipped; what is
/// missing is a fault of the line after the last one.
#[derive(Clone, Copy, Debug, PartialEq, Eq)]
pub struct CaptureFault {
    pub line: u64,
    pub cause: Cause,
}

/// Why a text wasn't read.
#[derive(Clone, Copy, Debug, PartialEq, Eq)]
pub enum CaptureRefusal {
    /// Something is wrong with it.
    Fault(CaptureFault),
    /// No memory was given.
    NoMemory,
}

impl CaptureRefusal {
    ghost use Rattle.gn_text.specs.Faults.{refused_at};

    /// The refusal of a text whose first fault is this cause in the line of this number.
    pub fn at(line: u64, cause: Cause) -> CaptureRefusal
        ensures { result ≡ refused_at line cause }
    {
        CaptureRefusal::Fault(CaptureFault { line, cause })
    }
}

impl From<AllocError> for CaptureRefusal {
    ghost use Rattle.gn_text.specs.declared.fault.CaptureRefusal.TheVariants.{NoMemory};

    ghost from_gives = { λ _ e. e ≡ NoMemory };

    fn from(_e: AllocError) -> CaptureRefusal {
        CaptureRefusal::NoMemory
    }
}

impl<T: Drop> From<AllocFailed<T>> for CaptureRefusal {
    ghost use Rattle.gn_text.specs.declared.fault.CaptureRefusal.TheVariants.{NoMemory};

    ghost from_gives = { λ _ e. e ≡ NoMemory };

    fn from(_e: AllocFailed<T>) -> CaptureRefusal {
        CaptureRefusal::NoMemory
    }
}
