//! Why a text that is read a line at a time isn't read.

ghost use Rattle.std.specs.Prelude.{◌≡◌};

use gn_io::InputFault;
use gn_text::CaptureRefusal;
use std::alloc::AllocError;

/// Why no more was read.
#[derive(Clone, Copy, Debug, PartialEq, Eq)]
pub enum StreamFault {
    /// The input: a read failed, or a line is too long.
    Input(InputFault),
    /// What the text says.
    Text(CaptureRefusal),
}

impl From<InputFault> for StreamFault {
    ghost use Rattle.gn_stream.specs.declared.fault.StreamFault.TheVariants.{Input};

    ghost from_gives = { λ fault e. e ≡ Input fault };

    fn from(fault: InputFault) -> StreamFault {
        StreamFault::Input(fault)
    }
}

impl From<CaptureRefusal> for StreamFault {
    ghost use Rattle.gn_stream.specs.declared.fault.StreamFault.TheVariants.{Text};

    ghost from_gives = { λ refusal e. e ≡ Text refusal };

    fn from(refusal: CaptureRefusal) -> StreamFault {
        StreamFault::Text(refusal)
    }
}

impl From<AllocError> for StreamFault {
    ghost use Rattle.gn_stream.specs.declared.fault.StreamFault.TheVariants.{Text};
    ghost use Rattle.gn_text.specs.declared.fault.CaptureRefusal.TheVariants.{NoMemory};

    ghost from_gives = { λ _ e. e ≡ Text NoMemory };

    fn from(_e: AllocError) -> StreamFault {
        StreamFault::Text(CaptureRefusal::NoMemory)
    }
}
