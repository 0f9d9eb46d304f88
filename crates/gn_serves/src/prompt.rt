//! Runs over the loopback that wait for nobody: small packets go out at once, and a run that has failed lets its peers go.

use crate::loopback::peers::{Peer, sent};
use crate::loopback::{Run, fault_of, must_fail, seen_of};
use crate::wanted::a_listener;
use gn_fixtures::PING;
use gn_threads::RunFault;
use std::alloc::Global;
use std::net::{Net, TcpListener, TcpStream};
use std::process::Abort;
use std::sync::Wait;
use std::test::Fail;
use std::thread::Threads;
use std::time::{Clock, Duration, Instant};

/// How many times two clients send in turn at most, until it takes less than a second once. Where packets wait for one another,
/// each time takes 2 seconds at least; where the machine is busy, one may be late by chance.
const ROUNDS: u8 = 5;

/// The run of two clients that send in turn.
static IN_TURN: Run = Run {
    peer: Peer::Turns,
    steps: 2000,
    ..Run::USUAL
};

/// Whether two clients send in turn within a second.
fn are_prompt<
    R: Threads
        + Wait
        + Net<Listener = TcpListener, Stream = TcpStream>
        + Sync
        + Abort
        + Clock
        + AllocGlobal,
>(rt: &R, alloc: Global) -> Result<bool, Fail> {
    let begun = Instant::now(rt)?;
    seen_of(rt, alloc, &IN_TURN)?;
    Ok(begun.elapsed(rt)? < Duration::from_secs(1))
}

#[test]
fn no_packet_waits_for_another(rt: HostRuntime) -> Result<(), Fail> {
    for _ in 0..ROUNDS {
        if are_prompt(&rt, rt.alloc())? {
            return Ok(());
        }
    }
    Err("a round within a second".into())
}

/// The fault of a run of three steps, whose callers stay.
fn fault_beside_two<
    R: Threads
        + Wait
        + Net<Listener = TcpListener, Stream = TcpStream>
        + Sync
        + Clock
        + AllocGlobal,
>(rt: &R, alloc: Global) -> Result<Option<RunFault>, Fail> {
    let listener = a_listener(rt)?;
    let at = listener.local_addr()?;
    let silent = sent(rt, at, b"")?;
    let loud = sent(rt, at, PING)?;
    let fault = fault_of(rt, alloc, &listener, 3, 4, &[]);
    drop(loud);
    drop(silent);
    Ok(fault)
}

/// A caller that says nothing after its greeting, beside one that fills a history of three steps. Both stay, and nobody else
/// calls.
#[test]
fn a_full_history_waits_for_nobody(rt: HostRuntime) -> Result<(), Fail> {
    let fault = fault_beside_two(&rt, rt.alloc())?;
    must_fail(&rt, fault, RunFault::HistoryFull);
    Ok(())
}
