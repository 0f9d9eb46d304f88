//! What a command answers, and the status that stands for it.

ghost use Rattle.std.specs.Prelude.{◌≡◌, Bool};
ghost use Rattle.gn_program.specs.Answers.{is_done, is_legal, status_of};

use crate::fault::Fault;
use crate::text::write_text;
use gn_io::Sink;
use gn_replay::Exit;
use gn_rules::Legality;

/// Done, or legal.
pub(crate) const DONE: u8 = 0;

/// A fault, or a wrong history.
pub(crate) const FAULT: u8 = 1;

/// What a command answers where nothing stops it.
pub(crate) trait Answer: Drop {
    /// Whether it is good.
    ghost good: { Self → Bool };

    /// Whether it is.
    fn is_good(&self) -> bool
        ensures { result ≡ good self.now };
}

impl Answer for () {
    ghost good = { is_done };

    fn is_good(&self) -> bool {
        true
    }
}

impl Answer for Exit {
    ghost good = { is_done };

    fn is_good(&self) -> bool {
        true
    }
}

impl Answer for Legality {
    ghost good = { is_legal };

    fn is_good(&self) -> bool {
        match self {
            Legality::Legal => true,
            Legality::WrongAt(_) => false,
        }
    }
}

/// Writes a fault, on a line of its own. That it can't be written changes no status.
pub(crate) fn write_fault<F: Sink>(faults: &mut F, fault: Fault) -> u8
    ensures { result ≡ 1 }
{
    let _ = write_text(faults, fault);
    FAULT
}

/// The status after an answer, whose fault is written.
pub(crate) fn end<T: Answer, E: Drop, F: Sink>(faults: &mut F, answer: Result<T, E>) -> u8
where
    Fault: From<E>,
    ensures { result ≡ status_of T.good answer }
{
    match answer {
        Ok(done) => { if done.is_good() { DONE } else { FAULT } }
        Err(fault) => write_fault(faults, Fault::from(fault)),
    }
}
