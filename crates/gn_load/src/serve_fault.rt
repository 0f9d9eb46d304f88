//! Why a run over TCP has no history that was written.

ghost use Rattle.std.specs.Prelude.{◌≡◌};
ghost use Rattle.gn_load.specs.declared.serve_fault.ServeFault.TheVariants.{Run, Write};
ghost use Rattle.gn_start.specs.declared.fault.RunFault.TheVariants.{NoMemory};

use gn_io::IoFault;
use gn_service::RunFault;
use std::alloc::AllocError;

/// Why a run over TCP has no history that was written.
#[derive(Clone, Copy, Debug, PartialEq, Eq)]
pub enum ServeFault {
    /// The run has no report, or no memory was given for the history's text.
    Run(RunFault),
    /// The history couldn't be written.
    Write,
}

impl From<RunFault> for ServeFault {
    ghost from_gives = { λ fault e. e ≡ Run fault };

    fn from(fault: RunFault) -> ServeFault {
        ServeFault::Run(fault)
    }
}

impl From<AllocError> for ServeFault {
    ghost from_gives = { λ _ e. e ≡ Run NoMemory };

    fn from(e: AllocError) -> ServeFault {
        ServeFault::Run(RunFault::from(e))
    }
}

impl From<IoFault> for ServeFault {
    ghost from_gives = { λ _ e. e ≡ Write };

    fn from(_fault: IoFault) -> ServeFault {
        ServeFault::Write
    }
}
