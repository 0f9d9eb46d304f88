//! How runs over the loopback end: nobody holds one that is stopped, and nobody waits for it in vain.

use crate::loopback::peers::Peer;
use crate::loopback::{DRAINED, Ends, Row, Run, StopBy, all_are_found};
use gn_bodies::{ReaderEnd, WriterEnd};
use std::test::Fail;

/// How a link ends whose peer reads nothing, once its run lets it go.
const LET_GO: Ends = (ReaderEnd::Bytes, WriterEnd::WriteFailed);

/// How a link ends whose peer never came.
const MISSING: Ends = (ReaderEnd::GreetingCut, WriterEnd::WriteFailed);

/// Runs that are stopped beside a peer that reads nothing, or only then.
const SILENT: [Row; 2] = [
    Row {
        run: Run {
            peer: Peer::Deaf,
            steps: 10_000,
            stop: StopBy::Peer,
            grace: Some(500),
            ..Run::USUAL
        },
        steps: None,
        counts: None,
        ends: [Some(LET_GO), Some(DRAINED), None, None],
    },
    Row {
        run: Run {
            peer: Peer::ReadsLate,
            steps: 10_000,
            stop: StopBy::Peer,
            grace: Some(20_000),
            ..Run::USUAL
        },
        steps: None,
        counts: None,
        ends: [Some(DRAINED), Some(DRAINED), None, None],
    },
];

/// A peer that reads nothing until the run is stopped is written all that waits for it then. One that never reads doesn't hold the
/// run: it is let go once the grace is over. Whoever stops the run has all.
#[test]
fn a_peer_that_reads_nothing_has_a_grace(rt: HostRuntime) -> Result<(), Fail> {
    all_are_found(&rt, rt.alloc(), SILENT.as_slice())
}

/// A run that also calls one that isn't there, again and again, and is stopped after a second.
const IN_TIME: [Row; 1] = [Row {
    run: Run {
        peer: Peer::Called,
        accept: 0,
        stop: StopBy::Time(1_000),
        retry: Some(60_000),
        calls_nobody: true,
        ..Run::USUAL
    },
    steps: Some(5),
    counts: None,
    ends: [Some(DRAINED), Some(MISSING), None, None],
}];

/// A run that is stopped while it calls a peer that isn't there ends well: that link never comes, and the one before it has all.
#[test]
fn a_stop_ends_the_calls(rt: HostRuntime) -> Result<(), Fail> {
    all_are_found(&rt, rt.alloc(), IN_TIME.as_slice())
}

/// A run that calls one that isn't there, again and again, and is stopped by a caller.
const BY_CALLER: [Row; 1] = [Row {
    run: Run {
        peer: Peer::Stops,
        accept: 1,
        stop: StopBy::Peer,
        retry: Some(60_000),
        calls_nobody: true,
        ..Run::USUAL
    },
    steps: Some(5),
    counts: None,
    ends: [Some(MISSING), Some(DRAINED), None, None],
}];

/// A caller is served while a peer is still called that isn't there.
#[test]
fn a_caller_waits_for_no_peer(rt: HostRuntime) -> Result<(), Fail> {
    all_are_found(&rt, rt.alloc(), BY_CALLER.as_slice())
}
