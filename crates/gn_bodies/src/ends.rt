//! How the bodies end.

use gn_rules::Refusal;
use gn_wire::FrameFault;

/// How the body of a reader ended.
#[derive(Clone, Copy, Debug, PartialEq, Eq)]
pub enum ReaderEnd {
    /// All bytes were read.
    Bytes,
    /// A header says a length that its kind can't have.
    Fault(FrameFault),
    /// A read failed.
    ReadFailed,
    /// The limit of reads that give bytes was reached.
    Turns,
    /// The bytes differ from the greeting.
    GreetingRefused,
    /// The bytes end within the greeting.
    GreetingCut,
    /// The limit of live connections is reached.
    TooMany,
    /// Its writer closed the connection first.
    NotLive,
}

/// How the body of a writer ended.
#[derive(Clone, Copy, Debug, PartialEq, Eq)]
pub enum WriterEnd {
    /// All that it took was written, and the writer closed the connection.
    Drained,
    /// A write failed, or wrote no bytes.
    WriteFailed,
    /// All that it took was written, and another closed the connection.
    Closed,
    /// The link never connected.
    NeverOpened,
}

/// Why a body has no end of its own.
#[derive(Clone, Copy, Debug, PartialEq, Eq)]
pub enum BodyFault {
    /// The history has as many steps as it may have.
    HistoryFull,
    /// Out of memory.
    NoMemory,
    /// A job was refused its route. The body went on to its end.
    Refused,
}

impl From<Refusal> for BodyFault {
    ghost use Rattle.std.specs.Prelude.{◌≡◌};
    ghost use Rattle.gn_bodies.specs.Stops.{fault_of};

    ghost from_gives = { λ refusal fault. fault ≡ fault_of refusal };

    fn from(refusal: Refusal) -> BodyFault {
        match refusal {
            Refusal::HistoryFull => BodyFault::HistoryFull,
            Refusal::NoMemory => BodyFault::NoMemory,
            _ => BodyFault::Refused,
        }
    }
}

impl BodyFault {
    ghost use Rattle.std.specs.Prelude.{◌≡◌};
    ghost use Rattle.gn_bodies.specs.Stops.{is_stop};

    /// Whether it stops the body at once, and with it the run.
    pub fn is_stop(self) -> bool
        ensures { result ≡ is_stop self }
    {
        matches!(self, BodyFault::HistoryFull | BodyFault::NoMemory)
    }
}
