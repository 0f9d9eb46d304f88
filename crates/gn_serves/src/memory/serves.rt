//! A run over the loopback, of two clients that call.

use crate::loopback;
use crate::wanted::a_listener;
use gn_fixtures::{Heap, Refused, Turn, has_answered, refused_at};
use gn_service::Serving;
use gn_stage::StageFault;
use gn_threads::RunFault;
use std::alloc::Allocator;
use std::net::{Net, SocketAddr, TcpListener, TcpStream};
use std::sync::Wait;
use std::test::Fail;
use std::thread;
use std::thread::Threads;
use std::time::Clock;

/// Serves two callers, and lets the listener and the report go: the fault of the run.
fn serve<
    A: Allocator + Copy + Send + Sync,
    R: Threads
        + Wait
        + Net<Listener = TcpListener, Stream = TcpStream>
        + Clock
        + AllocGlobal
        + Sync,
>(rt: &R, alloc: A, listener: TcpListener) -> Option<RunFault> {
    loopback::serve(rt, alloc, &listener, 100, 2, &[], &Serving::UNLIMITED).err()
}

/// Two clients that have both called before either leaves. A caller that waits when the listener goes is refused.
fn two_clients<N: Net<Listener = TcpListener, Stream = TcpStream>>(
    net: &N,
    at: SocketAddr,
) -> bool {
    let first = TcpStream::connect(net, at);
    let second = TcpStream::connect(net, at);
    first.is_ok() && second.is_ok()
}

/// Both clients and the run that serves them: whether both called, and its fault.
fn both_are_served<
    A: Allocator + Copy + Send + Sync,
    R: Threads
        + Wait
        + Net<Listener = TcpListener, Stream = TcpStream>
        + Clock
        + AllocGlobal
        + Sync,
>(rt: &R, alloc: A) -> Result<(bool, Option<RunFault>), Fail> {
    let listener = a_listener(rt)?;
    let at = listener.local_addr()?;
    Ok(thread::join(
        rt,
        move || two_clients(rt, at),
        move || serve(rt, alloc, listener),
    ))
}

/// Serves both clients, where these growths are refused: out of memory, or a report. That its history is legal is proved, and
/// what clients hear that have more to say is shown where no memory is refused.
fn serve_refused<
    A: Allocator + Copy + Send + Sync,
    R: Threads
        + Wait
        + Net<Listener = TcpListener, Stream = TcpStream>
        + Clock
        + AllocGlobal
        + Sync,
>(rt: &R, heap: &Heap, alloc: A, refused: Refused) -> Result<Turn, Fail> {
    refused.begin(heap);
    let both = both_are_served(rt, alloc);
    let has_refused = heap.has_refused();
    heap.refuse_none();
    let (have_called, fault) = both?;
    Ok(match fault {
        None if has_refused => Turn::Refused,
        None if have_called => Turn::Answered,
        Some(RunFault::NoMemory | RunFault::Stage(StageFault::NoMemory)) if has_refused => {
            Turn::Refused
        }
        _ => Turn::Wrong,
    })
}

/// How many growths of a serve are refused, each alone or with all later ones, until a serve meets none.
fn growths_of_serves<
    A: Allocator + Copy + Send + Sync,
    R: Threads
        + Wait
        + Net<Listener = TcpListener, Stream = TcpStream>
        + Clock
        + AllocGlobal
        + Sync,
>(rt: &R, heap: &Heap, alloc: A, with_later: bool) -> Result<u64, Fail> {
    for number in 0..10_000 {
        let refused = refused_at(number, with_later);
        let turn = serve_refused(rt, heap, alloc, refused)?;
        if has_answered(refused, turn)? {
            return Ok(number);
        }
    }
    Err("a serve with no end of growths".into())
}

/// The growths of serves, alone and with all later ones.
fn all_growths<
    A: Allocator + Copy + Send + Sync,
    R: Threads
        + Wait
        + Net<Listener = TcpListener, Stream = TcpStream>
        + Clock
        + AllocGlobal
        + Sync,
>(rt: &R, heap: &Heap, alloc: A) -> Result<(u64, u64), Fail> {
    Ok((
        growths_of_serves(rt, heap, alloc, false)?,
        growths_of_serves(rt, heap, alloc, true)?,
    ))
}

#[test]
fn serves_of_two_clients(rt: HostRuntime) -> Result<(), Fail> {
    let heap = Heap::new(rt.alloc());
    let (alone, with_later) = all_growths(&rt, &heap, &heap)?;
    assert!(rt; alone > 30 && with_later > 30, "{alone} and {with_later}");
    Ok(())
}
