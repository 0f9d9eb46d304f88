//! Why a load stopped.

ghost use Rattle.std.specs.Prelude.{◌≡◌};
ghost use Rattle.gn_replay.specs.Faults.{of_input, of_refusal};
ghost use Rattle.gn_replay.specs.declared.fault.ReplayFault.TheVariants as replay;
ghost use Rattle.gn_load.specs.declared.fault.LoadFault.TheVariants.{Run, Text};
ghost use Rattle.gn_load.specs.JournalledLoads.{of_print};

use gn_io::{InputFault, IoFault};
use gn_printed::PrintFault;
use gn_replay::ReplayFault;
use gn_service::RunFault;
use gn_text::CaptureRefusal;
use std::alloc::AllocError;

/// Why a load stopped.
#[derive(Clone, Copy, Debug, PartialEq, Eq)]
pub enum LoadFault {
    /// Its input or its output is at fault, or no memory was given for them. A line that a load doesn't take is a fault of
    /// the input.
    Text(ReplayFault),
    /// The run has no report.
    Run(RunFault),
}

impl From<InputFault> for LoadFault {
    ghost from_gives = { λ fault e. e ≡ Text (of_input fault) };

    fn from(fault: InputFault) -> LoadFault {
        LoadFault::Text(ReplayFault::from(fault))
    }
}

impl From<CaptureRefusal> for LoadFault {
    ghost from_gives = { λ refusal e. e ≡ Text (of_refusal refusal) };

    fn from(refusal: CaptureRefusal) -> LoadFault {
        LoadFault::Text(ReplayFault::from(refusal))
    }
}

impl From<IoFault> for LoadFault {
    ghost from_gives = { λ _ e. e ≡ Text replay.Write };

    fn from(fault: IoFault) -> LoadFault {
        LoadFault::Text(ReplayFault::from(fault))
    }
}

impl From<PrintFault> for LoadFault {
    ghost from_gives = { λ fault e. e ≡ of_print fault };

    fn from(fault: PrintFault) -> LoadFault {
        match fault {
            PrintFault::Write => LoadFault::Text(ReplayFault::Write),
            PrintFault::NoMemory => LoadFault::Text(ReplayFault::NoMemory),
        }
    }
}

impl From<AllocError> for LoadFault {
    ghost from_gives = { λ _ e. e ≡ Text replay.NoMemory };

    fn from(e: AllocError) -> LoadFault {
        LoadFault::Text(ReplayFault::from(e))
    }
}

impl From<RunFault> for LoadFault {
    ghost from_gives = { λ fault e. e ≡ Run fault };

    fn from(fault: RunFault) -> LoadFault {
        LoadFault::Run(fault)
    }
}
