//! The fault lines.

ghost use Rattle.std.specs.Prelude.{◌≡◌};

use gn_load::{LoadFault, ServeFault};
use gn_replay::ReplayFault;
use gn_stage::StageFault;
use gn_text::{CaptureFault, cause_name};
use gn_threads::RunFault;
use std::fmt;
use std::fmt::{Display, Formatter, Write};
use thiserror::Error;

/// Why a command wasn't done, or what a host's own run came to, for its fault stream. Its text is its line, with the line feed.
#[derive(Clone, Copy, Debug, Error)]
pub enum Fault {
    /// A read of the input failed.
    Input,
    /// The input has more than 67,108,864 bytes.
    InputTooLarge,
    /// The input isn't what it has to be: its first fault.
    Line(CaptureFault),
    /// A write of the output failed, or took nothing.
    Output,
    /// Out of memory, or a thread couldn't be started.
    NoMemory,
    /// The history has as many steps as it may have.
    HistoryFull,
    /// A link couldn't be accepted, or the port couldn't be listened at.
    Listen,
    /// A neighbour couldn't be called: its number, from 0 on.
    Call(u32),
    /// A link couldn't be split: its number, from 0 on.
    Link(u32),
    /// The stage queue lost what was put into it.
    StageMissing,
    /// The least actor of which something isn't confirmed.
    Audit(u32),
    /// Not 1 to 64 workers, which the command line refuses before.
    Workers,
    /// The system gave no random bytes for the own servent's ID.
    NoRandomBytes,
}

impl Display for Fault {
    ghost use Rattle.std.specs.Prelude.{Some};
    ghost use Rattle.gn_program.specs.FaultTexts.{fault_text};

    ghost output = { λ fault. Some (fault_text fault) };

    fn fmt<W: Write>(&self, f: &mut Formatter<W>) -> fmt::Result {
        let line = match self {
            Fault::Input => "fault: input failed\n",
            Fault::InputTooLarge => "fault: input too large\n",
            Fault::Line(CaptureFault { line, cause }) => {
                return writeln!(f, "fault: line {line}: {}", cause_name(*cause));
            }
            Fault::Output => "fault: output failed\n",
            Fault::NoMemory => "fault: no memory\n",
            Fault::HistoryFull => "fault: history full\n",
            Fault::Listen => "fault: listen\n",
            Fault::Call(peer) => return writeln!(f, "fault: call {peer}"),
            Fault::Link(link) => return writeln!(f, "fault: link {link}"),
            Fault::StageMissing => "fault: stage missing\n",
            Fault::Audit(actor) => return writeln!(f, "fault: audit {actor}"),
            Fault::Workers => "fault: workers\n",
            Fault::NoRandomBytes => "fault: no random bytes\n",
        };
        f.write_str(line)
    }
}

impl From<ReplayFault> for Fault {
    ghost use Rattle.gn_program.specs.FaultTexts.{of_replay};

    ghost from_gives = { λ fault line. line ≡ of_replay fault };

    fn from(fault: ReplayFault) -> Fault {
        match fault {
            ReplayFault::Read => Fault::Input,
            ReplayFault::TooLarge => Fault::InputTooLarge,
            ReplayFault::Capture(fault) => Fault::Line(fault),
            ReplayFault::Write => Fault::Output,
            ReplayFault::NoMemory => Fault::NoMemory,
        }
    }
}

impl From<RunFault> for Fault {
    ghost use Rattle.gn_program.specs.FaultTexts.{of_run};

    ghost from_gives = { λ fault line. line ≡ of_run fault };

    fn from(fault: RunFault) -> Fault {
        match fault {
            RunFault::BadWorkers => Fault::Workers,
            RunFault::Listen => Fault::Listen,
            RunFault::Call(peer) => Fault::Call(peer),
            RunFault::Link(link) => Fault::Link(link),
            RunFault::HistoryFull => Fault::HistoryFull,
            RunFault::NoMemory | RunFault::Stage(StageFault::NoMemory) => Fault::NoMemory,
            RunFault::Stage(StageFault::Missing) => Fault::StageMissing,
            RunFault::Audit(actor) => Fault::Audit(actor),
        }
    }
}

impl From<LoadFault> for Fault {
    ghost use Rattle.gn_program.specs.FaultTexts.{of_load};

    ghost from_gives = { λ fault line. line ≡ of_load fault };

    fn from(fault: LoadFault) -> Fault {
        match fault {
            LoadFault::Text(fault) => Fault::from(fault),
            LoadFault::Run(fault) => Fault::from(fault),
        }
    }
}

impl From<ServeFault> for Fault {
    ghost use Rattle.gn_program.specs.FaultTexts.{of_serve};

    ghost from_gives = { λ fault line. line ≡ of_serve fault };

    fn from(fault: ServeFault) -> Fault {
        match fault {
            ServeFault::Run(fault) => Fault::from(fault),
            ServeFault::Write => Fault::Output,
        }
    }
}
