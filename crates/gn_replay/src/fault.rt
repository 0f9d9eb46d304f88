//! The faults, and what they are made of.

ghost use Rattle.std.specs.Prelude.{◌≡◌};
ghost use Rattle.gn_replay.specs.Faults.{of_input, of_refusal, of_stream};

use gn_io::{InputFault, IoFault};
use gn_stream::StreamFault;
use gn_text::{CaptureFault, CaptureRefusal};
use std::alloc::{AllocError, AllocFailed};

/// Why a replay stopped, or an audit.
#[derive(Clone, Copy, Debug, PartialEq, Eq)]
pub enum ReplayFault {
    /// A read of the input failed.
    Read,
    /// The input has more than 67,108,864 bytes; that of an audit, a line that has.
    TooLarge,
    /// The input isn't what it has to be: its first fault.
    Capture(CaptureFault),
    /// A write of the output failed, or took nothing.
    Write,
    /// Out of memory.
    NoMemory,
}

impl From<InputFault> for ReplayFault {
    ghost from_gives = { λ fault e. e ≡ of_input fault };

    fn from(fault: InputFault) -> ReplayFault {
        match fault {
            InputFault::Read => ReplayFault::Read,
            InputFault::TooLarge => ReplayFault::TooLarge,
            InputFault::NoMemory => ReplayFault::NoMemory,
        }
    }
}

impl From<CaptureRefusal> for ReplayFault {
    ghost from_gives = { λ refusal e. e ≡ of_refusal refusal };

    fn from(refusal: CaptureRefusal) -> ReplayFault {
        match refusal {
            CaptureRefusal::Fault(fault) => ReplayFault::Capture(fault),
            CaptureRefusal::NoMemory => ReplayFault::NoMemory,
        }
    }
}

impl From<StreamFault> for ReplayFault {
    ghost from_gives = { λ fault e. e ≡ of_stream fault };

    fn from(fault: StreamFault) -> ReplayFault {
        match fault {
            StreamFault::Input(fault) => ReplayFault::from(fault),
            StreamFault::Text(refusal) => ReplayFault::from(refusal),
        }
    }
}

impl From<IoFault> for ReplayFault {
    ghost use Rattle.gn_replay.specs.declared.fault.ReplayFault.TheVariants.{Write};

    ghost from_gives = { λ _ e. e ≡ Write };

    fn from(_fault: IoFault) -> ReplayFault {
        ReplayFault::Write
    }
}

impl From<AllocError> for ReplayFault {
    ghost use Rattle.gn_replay.specs.declared.fault.ReplayFault.TheVariants.{NoMemory};

    ghost from_gives = { λ _ e. e ≡ NoMemory };

    fn from(_e: AllocError) -> ReplayFault {
        ReplayFault::NoMemory
    }
}

impl<T: Drop> From<AllocFailed<T>> for ReplayFault {
    ghost use Rattle.gn_replay.specs.declared.fault.ReplayFault.TheVariants.{NoMemory};

    ghost from_gives = { λ _ e. e ≡ NoMemory };

    fn from(_e: AllocFailed<T>) -> ReplayFault {
        ReplayFault::NoMemory
    }
}
