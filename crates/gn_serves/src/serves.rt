//! Runs over the loopback that are called and that call.

use crate::loopback::peers::{LATE, Peer, called};
use crate::loopback::{
    DRAINED, Ends, Row, Run, Seen, all_are_found, fault_of, must_fail, nobody, seen_of,
    two_listeners,
};
use crate::wanted::a_listener;
use gn_bodies::{ReaderEnd, WriterEnd};
use gn_threads::RunFault;
use std::alloc::Global;
use std::net::{Ipv4Addr, Net, SocketAddr, TcpListener, TcpStream};
use std::process::Abort;
use std::sync::Wait;
use std::test::Fail;
use std::thread::Threads;
use std::time::{Clock, Duration, Instant};

/// How a link ends whose peer doesn't greet.
const REFUSED: Ends = (ReaderEnd::GreetingRefused, WriterEnd::NeverOpened);

/// What is found of each kind of peer, in the order in which they are tried.
const ROWS: [Row; 4] = [
    Row {
        run: Run {
            peer: Peer::Two,
            accept: 2,
            ..Run::USUAL
        },
        steps: Some(10),
        counts: Some([2, 2, 1, 1, 2, 2]),
        ends: [Some(DRAINED), Some(DRAINED), None, None],
    },
    Row {
        run: Run {
            peer: Peer::Stranger,
            accept: 2,
            ..Run::USUAL
        },
        steps: Some(2),
        counts: Some([1, 0, 0, 0, 0, 1]),
        ends: [Some(REFUSED), Some(DRAINED), None, None],
    },
    Row {
        run: Run {
            peer: Peer::Called,
            accept: 0,
            ..Run::USUAL
        },
        steps: Some(5),
        counts: Some([1, 1, 1, 0, 1, 1]),
        ends: [Some(DRAINED), None, None, None],
    },
    Row {
        run: Run {
            peer: Peer::Last,
            accept: 1,
            ..Run::USUAL
        },
        steps: Some(2),
        counts: Some([1, 0, 0, 0, 0, 1]),
        ends: [Some(DRAINED), None, None, None],
    },
];

#[test]
fn peers_are_served(rt: HostRuntime) -> Result<(), Fail> {
    all_are_found(&rt, rt.alloc(), ROWS.as_slice())
}

/// A run whose peer listens late. It calls other machines, too.
static CALLED_LATE: Run = Run {
    peer: Peer::CalledLate,
    accept: 0,
    retry: Some(20_000),
    calls_far: true,
    ..Run::USUAL
};

/// Ends the test where that run makes another number of steps, or its first link leads elsewhere.
fn must_be_called<R: Abort>(rt: &R, seen: &Seen) {
    let there = SocketAddr::from((Ipv4Addr::LOCALHOST, LATE));
    assert_eq!(rt; (seen.steps, seen.peer), (5, Some(there)));
}

/// Makes that run, and ends the test also where it takes 20 seconds.
fn must_be_called_late<
    R: Threads
        + Wait
        + Net<Listener = TcpListener, Stream = TcpStream>
        + Sync
        + Abort
        + Clock
        + AllocGlobal,
>(rt: &R, alloc: Global) -> Result<(), Fail> {
    let begun = Instant::now(rt)?;
    let seen = seen_of(rt, alloc, &CALLED_LATE)?;
    let took = begun.elapsed(rt)?;
    must_be_called(rt, &seen);
    assert!(rt; took < Duration::from_secs(20), "{took:?}");
    Ok(())
}

/// It is called again and again, many times in a second.
#[test]
fn a_peer_is_called_until_it_listens(rt: HostRuntime) -> Result<(), Fail> {
    must_be_called_late(&rt, rt.alloc())
}

/// The fault of a run that calls one who is there and one who isn't, and whether it lets the first go.
fn fault_beside_nobody<
    R: Threads
        + Wait
        + Net<Listener = TcpListener, Stream = TcpStream>
        + Sync
        + Clock
        + AllocGlobal,
>(rt: &R, alloc: Global) -> Result<(Option<RunFault>, bool), Fail> {
    let listeners = two_listeners(rt)?;
    let both = [listeners.theirs.local_addr()?, nobody(rt)?];
    let fault = fault_of(rt, alloc, &listeners.own, 100, 1, both.as_slice());
    Ok((fault, called(&listeners.theirs, true)))
}

/// The first of two peers is there. It is let go, though it doesn't answer and stays.
#[test]
fn a_peer_that_is_not_there_ends_the_run(rt: HostRuntime) -> Result<(), Fail> {
    let (fault, is_let_go) = fault_beside_nobody(&rt, rt.alloc())?;
    must_fail(&rt, fault, RunFault::Call(1));
    assert!(rt; is_let_go);
    Ok(())
}

/// The fault of a run whose listener doesn't wait, where nobody has called.
fn fault_of_a_listener<
    R: Threads
        + Wait
        + Net<Listener = TcpListener, Stream = TcpStream>
        + Sync
        + Clock
        + AllocGlobal,
>(rt: &R, alloc: Global) -> Result<Option<RunFault>, Fail> {
    let listener = a_listener(rt)?;
    listener.set_nonblocking(true)?;
    let fault = fault_of(rt, alloc, &listener, 100, 1, &[]);
    drop(listener);
    Ok(fault)
}

#[test]
fn a_listener_that_fails_ends_the_run(rt: HostRuntime) -> Result<(), Fail> {
    let fault = fault_of_a_listener(&rt, rt.alloc())?;
    must_fail(&rt, fault, RunFault::Listen);
    Ok(())
}
