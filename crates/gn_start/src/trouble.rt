//! What goes wrong in a run.

ghost use Rattle.std.specs.Prelude.{◌≡◌, ◌||◌, ◌⊎◌, None, Some, true, false, is_some};
ghost use Rattle.gn_start.specs.declared.fault.RunFault.TheVariants.{NoMemory};

use crate::fault::RunFault;

/// The fault of a run, where it has one; and whether a thread or memory was refused, so that something of its links is lost.
#[derive(Clone, Copy, Drop)]
pub(crate) struct Trouble {
    pub is_lost: bool,
    pub fault: Option<RunFault>,
}

/// Which of two faults a run tells of, the lesser: that a link doesn't come, then a full history, then memory, then an audit.
fn rank(fault: RunFault) -> u8 {
    match fault {
        RunFault::HistoryFull => 1,
        RunFault::NoMemory => 2,
        RunFault::Audit(_) => 3,
        _ => 0,
    }
}

/// Which of two faults a run tells of.
fn first(fault: RunFault, found: RunFault) -> RunFault
    ensures { (result ≡ fault) ⊎ (result ≡ found) }
{
    if rank(found) < rank(fault) {
        found
    } else {
        fault
    }
}

/// The same of faults that there may be.
pub(crate) fn either(fault: Option<RunFault>, found: Option<RunFault>) -> Option<RunFault>
    ensures some { (is_some fault ≡ true → is_some result ≡ true) × (is_some found ≡ true → is_some result ≡ true) }
    ensures one { (result ≡ fault) ⊎ (result ≡ found) }
{
    match (fault, found) {
        (Some(fault), Some(found)) => Some(first(fault, found)),
        (Some(fault), None) => Some(fault),
        (None, found) => found,
    }
}

impl Trouble {
    /// None yet.
    pub(crate) fn none() -> Self
        ensures { result ≡ record { is_lost = false; fault = None } }
    {
        Trouble {
            is_lost: false,
            fault: None,
        }
    }

    /// With this, where it is one.
    pub(crate) fn with(self, found: Option<RunFault>) -> Self
        ensures lost { result.is_lost ≡ self.is_lost }
        ensures some { (is_some self.fault ≡ true → is_some result.fault ≡ true)
            × (is_some found ≡ true → is_some result.fault ≡ true) }
        ensures one { (result.fault ≡ self.fault) ⊎ (result.fault ≡ found) }
    {
        Trouble {
            is_lost: self.is_lost,
            fault: either(self.fault, found),
        }
    }

    /// Where something of the links is lost, too.
    pub(crate) fn lost(self) -> Self
        ensures lost { result.is_lost ≡ true }
        ensures some { is_some result.fault ≡ true }
        ensures one { (result.fault ≡ self.fault) ⊎ (result.fault ≡ Some NoMemory) }
    {
        Trouble {
            is_lost: true,
            fault: either(self.fault, Some(RunFault::NoMemory)),
        }
    }

    /// Where something else is lost, this is, too.
    pub(crate) fn or_lost(self, is_lost: bool) -> Self
        ensures lost { result.is_lost ≡ (self.is_lost || is_lost) }
        ensures some { (is_some self.fault ≡ true → is_some result.fault ≡ true)
            × (is_lost ≡ true → is_some result.fault ≡ true) }
        ensures none { is_lost ≡ false → result ≡ self }
        ensures one { (result.fault ≡ self.fault) ⊎ (result.fault ≡ Some NoMemory) }
    {
        if is_lost {
            return self.lost();
        }
        self
    }
}
