//! Exits of a body that leave no step: what is shut, and what fails the run. Those that close have their rows with whole runs.

use super::worked::never_opens;
use super::{Ends, Setting, USUAL, run_plain};
use gn_bodies::{BodyFault, ReaderEnd, WriterEnd};
use gn_fixtures::PING;
use gn_links::MemoryLink;
use gn_shake::{Role, request};
use std::alloc::Global;
use std::process::Abort;
use std::sync::Wait;
use std::test::Fail;

/// Fails unless a link whose read fails within its greeting never opens.
fn fail_in_greeting<R: Wait + Abort>(rt: &R, alloc: Global) -> Result<(), Fail> {
    let link = MemoryLink::new(Role::Accepting, request().to_vec(alloc)?, 1);
    let failing = link.failing(Some(22), None);
    assert!(rt; never_opens(rt, alloc, failing, ReaderEnd::ReadFailed, b"")?);
    Ok(())
}

#[test]
fn a_read_fails_in_the_greeting(rt: HostRuntime) -> Result<(), Fail> {
    fail_in_greeting(&rt, rt.alloc())
}

/// How the bodies of a link of one Ping end in a run of at most so many steps.
fn ends_at(steps: u32) -> Ends {
    let full = BodyFault::HistoryFull;
    match steps {
        1 => (Err(full), Ok(()), Ok(WriterEnd::Closed)),
        2 => (Ok(ReaderEnd::Bytes), Err(full), Ok(WriterEnd::Closed)),
        3 | 4 => (Ok(ReaderEnd::Bytes), Ok(()), Err(full)),
        _ => (Ok(ReaderEnd::Bytes), Ok(()), Ok(WriterEnd::Drained)),
    }
}

/// Whether they end so, and such a run fails where its steps are too few, and closes.
fn is_found_at<R: Wait>(rt: &R, alloc: Global, steps: u32) -> Result<bool, Fail> {
    let ran = run_plain(rt, alloc, Setting { steps, ..USUAL }, PING)?;
    Ok(
        ran.ends == ends_at(steps)
            && ran.has_failed == (steps < 5)
            && ran.is_closing == (steps != 2),
    )
}

/// Fails where a run of too few steps, or of enough, isn't found so.
fn find_all<R: Wait + Abort>(rt: &R, alloc: Global) -> Result<(), Fail> {
    for steps in 1..6 {
        assert!(rt; is_found_at(rt, alloc, steps)?, "at most {steps}");
    }
    Ok(())
}

#[test]
fn a_full_history_fails_the_run(rt: HostRuntime) -> Result<(), Fail> {
    find_all(&rt, rt.alloc())
}
