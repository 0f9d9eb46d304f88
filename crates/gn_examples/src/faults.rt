//! The line of each fault.

use gn_program::Fault;
use gn_replay::ReplayFault;
use gn_stage::StageFault;
use gn_text::{CaptureFault, Cause};
use gn_threads::RunFault;
use std::io;

/// Whether each fault is written as its line.
pub(crate) fn are_written<R: AllocGlobal>(rt: &R) -> io::Result<bool> {
    let cut = CaptureFault {
        line: 12,
        cause: Cause::Fields,
    };
    let no_memory = RunFault::Stage(StageFault::NoMemory);
    let missing = RunFault::Stage(StageFault::Missing);
    let rows = [
        (Fault::from(ReplayFault::Read), "fault: input failed\n"),
        (
            Fault::from(ReplayFault::TooLarge),
            "fault: input too large\n",
        ),
        (
            Fault::from(ReplayFault::Capture(cut)),
            "fault: line 12: fields\n",
        ),
        (Fault::from(ReplayFault::Write), "fault: output failed\n"),
        (Fault::from(RunFault::NoMemory), "fault: no memory\n"),
        (Fault::from(no_memory), "fault: no memory\n"),
        (Fault::from(RunFault::HistoryFull), "fault: history full\n"),
        (Fault::from(RunFault::Listen), "fault: listen\n"),
        (Fault::from(RunFault::Call(0)), "fault: call 0\n"),
        (Fault::from(RunFault::Link(255)), "fault: link 255\n"),
        (Fault::from(missing), "fault: stage missing\n"),
        (Fault::from(RunFault::Audit(20)), "fault: audit 20\n"),
    ];
    for (fault, line) in rows {
        let text = format!(in rt.alloc(); "{fault}")?;
        if text.as_str() != line {
            return Ok(false);
        }
    }
    Ok(true)
}
