//! Runs over the loopback that the system has no handles for.

use crate::loopback::peers::{all_sent, hears};
use crate::loopback::{DRAINED, Seen, fault_of, must_fail, seen_at};
use crate::wanted::a_listener;
use gn_fixtures::{OWN_PONG, PING};
use gn_run_fixtures::a_report;
use gn_service::Serving;
use gn_threads::RunFault;
use std::alloc::{AllocError, Global};
use std::fs::File;
use std::net::{Net, TcpListener, TcpStream};
use std::rt::Files;
use std::sync::Wait;
use std::test::Fail;
use std::thread;
use std::thread::Threads;
use std::time::{Clock, Duration};

/// More handles than a process may have.
const MOST: u32 = 4_000_000;

/// Takes handles until the system gives no more. Whether there was an end of them.
fn take<R: Files<File = File>>(rt: &R, held: &mut Vec<File>) -> Result<bool, AllocError> {
    for _ in 0..MOST {
        match File::open(rt, "/dev/null") {
            Ok(file) => held.push(file)?,
            Err(_) => return Ok(true),
        }
    }
    Ok(false)
}

/// All handles that the system still gives, but for so many.
fn take_all<R: Files<File = File>>(
    rt: &R,
    alloc: Global,
    spared: usize,
) -> Result<Vec<File>, Fail> {
    let mut held = Vec::new(alloc);
    match take(rt, &mut held) {
        Ok(true) => {
            held.truncate(held.len().saturating_sub(spared));
            Ok(held)
        }
        _ => Err("an end of handles".into()),
    }
}

/// Whether nothing comes for a fifth of a second.
fn hears_nothing(client: &TcpStream) -> bool {
    client
        .set_read_timeout(Some(Duration::from_millis(200)))
        .is_ok()
        && client.peek(&mut [0u8; 1]).is_err()
        && client
            .set_read_timeout(Some(Duration::from_secs(20)))
            .is_ok()
}

/// Whether a client isn't served before these handles are given back, and then is.
fn is_served_late<N: Clock>(clock: &N, client: &mut TcpStream, held: Vec<File>) -> bool {
    thread::sleep(clock, Duration::from_millis(200));
    let waits = hears_nothing(client);
    drop(held);
    waits && hears(client, gn_shake::consent()) && hears(client, OWN_PONG)
}

/// The fault of a run where no handles are left.
fn fault_without_handles<
    R: Threads
        + Wait
        + Net<Listener = TcpListener, Stream = TcpStream>
        + Files<File = File>
        + Sync
        + Clock
        + AllocGlobal,
>(rt: &R, alloc: Global) -> Result<Option<RunFault>, Fail> {
    let listener = a_listener(rt)?;
    let held = take_all(rt, alloc, 0)?;
    let fault = fault_of(rt, alloc, &listener, 100, 1, &[]);
    drop(held);
    Ok(fault)
}

/// A run that can't be called away from its listener doesn't begin, and says so.
#[test]
fn want_of_handles_is_no_want_of_memory(rt: HostRuntime) -> Result<(), Fail> {
    let fault = fault_without_handles(&rt, rt.alloc())?;
    must_fail(&rt, fault, RunFault::Listen);
    Ok(())
}

/// Whether such a client is served so, and what is seen of the run.
fn beside_client<
    R: Threads
        + Wait
        + Net<Listener = TcpListener, Stream = TcpStream>
        + Sync
        + Clock
        + AllocGlobal,
>(
    rt: &R,
    alloc: Global,
    listener: &TcpListener,
    client: &mut TcpStream,
    held: Vec<File>,
) -> (bool, Result<Seen, RunFault>) {
    thread::join(
        rt,
        move || is_served_late(rt, client, held),
        move || seen_at(rt, alloc, listener, 100, 1, &[], &Serving::UNLIMITED),
    )
}

/// Whether a client is served once there are handles again, and its run ends.
fn serves_client<
    R: Threads
        + Wait
        + Net<Listener = TcpListener, Stream = TcpStream>
        + Files<File = File>
        + Sync
        + Clock
        + AllocGlobal,
>(rt: &R, alloc: Global, listener: &TcpListener, client: &mut TcpStream) -> Result<bool, Fail> {
    // the run's own wants one
    let held = take_all(rt, alloc, 1)?;
    let (is_served, seen) = beside_client(rt, alloc, listener, client, held);
    Ok(is_served && a_report(seen)?.ends[0] == Some(DRAINED))
}

/// The same of a client that sends a Ping and its end.
fn serves_a_client<
    R: Threads
        + Wait
        + Net<Listener = TcpListener, Stream = TcpStream>
        + Files<File = File>
        + Sync
        + Clock
        + AllocGlobal,
>(rt: &R, alloc: Global, listener: &TcpListener) -> Result<bool, Fail> {
    let mut client = all_sent(rt, listener.local_addr()?, PING)?;
    serves_client(rt, alloc, listener, &mut client)
}

/// The same at a listener of its own.
fn serves_late<
    R: Threads
        + Wait
        + Net<Listener = TcpListener, Stream = TcpStream>
        + Files<File = File>
        + Sync
        + Clock
        + AllocGlobal,
>(rt: &R, alloc: Global) -> Result<bool, Fail> {
    let listener = a_listener(rt)?;
    serves_a_client(rt, alloc, &listener)
}

/// A caller for which there is no handle waits until there is one, and ends no run.
#[test]
fn a_caller_waits_for_a_handle(rt: HostRuntime) -> Result<(), Fail> {
    assert!(rt; serves_late(&rt, rt.alloc())?);
    Ok(())
}
