//! Why a run has no report and no account.

use gn_bodies::BodyFault;
use gn_links::SplitFault;
use gn_stage::StageFault;
use std::alloc::{AllocError, AllocFailed};

/// Why a run gives no report.
#[derive(Clone, Copy, Debug, PartialEq, Eq)]
pub enum RunFault {
    /// Not 1 to 64 workers.
    BadWorkers,
    /// A link couldn't be accepted; never of `run` itself.
    Listen,
    /// A neighbour couldn't be called: its number among those called, from 0 on; never of `run` itself.
    Call(u32),
    /// A link couldn't be split: its number.
    Link(u32),
    /// One step more than the history may have was asked for.
    HistoryFull,
    /// Out of memory, or a thread couldn't be started.
    NoMemory,
    /// The house couldn't close the queue of tickets at the end: a thread hadn't given it up, or out of memory.
    Stage(StageFault),
    /// This actor was refused a Route, or reads a link whose ends don't fit; or it is the house: an actor isn't home, a ticket is in
    /// flight, a writer drained too early, or the router has another configuration.
    Audit(u32),
}

impl From<AllocError> for RunFault {
    ghost use Rattle.std.specs.Prelude.{◌≡◌};
    ghost use Rattle.gn_start.specs.declared.fault.RunFault.TheVariants.{NoMemory};

    ghost from_gives = { λ _ e. e ≡ NoMemory };

    fn from(_e: AllocError) -> RunFault {
        RunFault::NoMemory
    }
}

impl<T: Drop> From<AllocFailed<T>> for RunFault {
    ghost use Rattle.std.specs.Prelude.{◌≡◌};
    ghost use Rattle.gn_start.specs.declared.fault.RunFault.TheVariants.{NoMemory};

    ghost from_gives = { λ _ e. e ≡ NoMemory };

    fn from(_e: AllocFailed<T>) -> RunFault {
        RunFault::NoMemory
    }
}

impl From<SplitFault> for RunFault {
    ghost use Rattle.std.specs.Prelude.{◌≡◌};
    ghost use Rattle.gn_start.specs.Faults.{of_split};

    ghost from_gives = { λ fault e. e ≡ of_split fault };

    fn from(fault: SplitFault) -> RunFault {
        match fault {
            SplitFault::Link(link) => RunFault::Link(link),
            SplitFault::NoMemory => RunFault::NoMemory,
        }
    }
}

impl RunFault {
    ghost use Rattle.std.specs.Prelude.{◌+◌, ◌<◌, ℕ};
    ghost use Rattle.gn_start.specs.Faults.{IsFaultOf};

    /// The fault of a run in which the body of this actor ended so.
    pub fn of_body(fault: BodyFault, actor: u32) -> RunFault
        ensures { (links workers : ℕ) → actor < links + links + workers + 1 → IsFaultOf links workers result }
    {
        match fault {
            BodyFault::HistoryFull => RunFault::HistoryFull,
            BodyFault::NoMemory => RunFault::NoMemory,
            BodyFault::Refused => RunFault::Audit(actor),
        }
    }
}
