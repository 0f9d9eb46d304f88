//! Runs over the loopback that are stopped, and what is written of one.

use crate::loads::is_legal;
use crate::loopback::peers::{Peer, hears, sent};
use crate::loopback::{DRAINED, Ends, Row, Run, StopBy, all_are_found, seen_of, serve_written};
use crate::wanted::a_listener;
use gn_bodies::{ReaderEnd, WriterEnd};
use gn_fixtures::PING;
use gn_links::NoGate;
use gn_load::ServeFault;
use gn_service::{Serving, Stop};
use gn_threads::RunFault;
use std::alloc::Global;
use std::io::{self, Read};
use std::net::{Net, TcpListener, TcpStream};
use std::sync::Wait;
use std::test::Fail;
use std::thread::Threads;
use std::time::Clock;

/// How a link ends that waits for a caller when its run is stopped.
const MISSING: Ends = (ReaderEnd::GreetingCut, WriterEnd::NeverOpened);

/// Runs that let in four callers, of whom one comes and is served. A time or that caller stops them.
const STOPPED: [Row; 2] = [
    Row {
        run: Run {
            peer: Peer::Stays,
            accept: 4,
            stop: StopBy::Time(3_000),
            ..Run::USUAL
        },
        steps: Some(5),
        counts: Some([1, 1, 1, 0, 1, 1]),
        ends: [Some(DRAINED), Some(MISSING), Some(MISSING), Some(MISSING)],
    },
    Row {
        run: Run {
            peer: Peer::Stops,
            accept: 4,
            stop: StopBy::Peer,
            ..Run::USUAL
        },
        steps: Some(5),
        counts: Some([1, 1, 1, 0, 1, 1]),
        ends: [Some(DRAINED), Some(MISSING), Some(MISSING), Some(MISSING)],
    },
];

/// Of four callers of a run one comes, and doesn't end: a time stops the run, or the caller.
#[test]
fn a_run_is_stopped(rt: HostRuntime) -> Result<(), Fail> {
    all_are_found(&rt, rt.alloc(), STOPPED.as_slice())
}

/// An input of so many bytes, which are read one at a time, and whether a read found the run stopped.
#[derive(Drop)]
struct Slow<'a> {
    stop: &'a Stop,
    left: u32,
    was_set: bool,
}

impl<'a> Read for Slow<'a> {
    fn read(&mut self, room: &mut [u8]) -> io::Result<usize> {
        self.was_set |= self.stop.is_set();
        if self.left == 0 || room.is_empty() {
            return Ok(0);
        }
        self.left -= 1;
        room[0] = b'x';
        Ok(1)
    }
}

/// Whether an input of so many bytes stops a run, how many of them are left then, whether the run was stopped before its end, and
/// whether it is then.
fn stopped_at_end(bytes: u32) -> (bool, u32, bool, bool) {
    let stop = Stop::new(None, false);
    let mut input = Slow {
        stop: &stop,
        left: bytes,
        was_set: false,
    };
    let is_read = stop.set_at_end(&mut input).is_ok();
    (is_read, input.left, input.was_set, stop.is_set())
}

/// The end of an input stops a run, and nothing before it.
#[test]
fn an_end_of_input_is_a_stop(rt: HostRuntime) {
    for bytes in 0..3 {
        assert_eq!(rt; stopped_at_end(bytes), (true, 0, false, true));
    }
}

/// What stands of a history is written.
const KEPT: Serving<'static> = Serving {
    is_kept: true,
    ..Serving::UNLIMITED
};

/// Whether the history of a run that stops at its third step is written, whose only client sends a Ping and stays.
fn is_kept<
    R: Threads
        + Wait
        + Net<Listener = TcpListener, Stream = TcpStream>
        + Sync
        + Clock
        + AllocGlobal,
>(rt: &R, alloc: Global, listener: &TcpListener) -> Result<bool, Fail> {
    let (served, written) = serve_written(rt, alloc, listener, 3, 1, &KEPT, &NoGate);
    if served != Err(ServeFault::Run(RunFault::HistoryFull)) {
        return Ok(false);
    }
    is_legal(alloc, written.as_slice(), 3)
}

/// Whether that history is written, and the client is let in.
fn is_let_in_and_kept<
    R: Threads
        + Wait
        + Net<Listener = TcpListener, Stream = TcpStream>
        + Sync
        + Clock
        + AllocGlobal,
>(rt: &R, alloc: Global) -> Result<bool, Fail> {
    let listener = a_listener(rt)?;
    let mut client = sent(rt, listener.local_addr()?, PING)?;
    let is_kept = is_kept(rt, alloc, &listener)?;
    Ok(hears(&mut client, gn_shake::consent()) && is_kept)
}

#[test]
fn a_history_is_kept(rt: HostRuntime) -> Result<(), Fail> {
    assert!(rt; is_let_in_and_kept(&rt, rt.alloc())?);
    Ok(())
}

/// A run of at most ten thousand steps that a flood stops.
static FLOODED: Run = Run {
    peer: Peer::Floods,
    accept: 1,
    steps: 10_000,
    stop: StopBy::Steps,
    ..Run::USUAL
};

/// A flooder doesn't fill the history: what is read once nine tenths of it are made is one piece at most.
#[test]
fn a_flood_is_stopped_early(rt: HostRuntime) -> Result<(), Fail> {
    let steps = seen_of(&rt, rt.alloc(), &FLOODED)?.steps;
    assert!(rt; 9_000 < steps && steps < 10_000, "{steps}");
    Ok(())
}
