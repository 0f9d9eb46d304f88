//! Serves whose history is written while they go on.

use crate::batch::usual_batch;
use crate::loopback::peers::hears;
use crate::wanted::a_called_listener;
use gn_fixtures::{OWN_PONG, PING, usual};
use gn_io::{IoFault, Sink, WriterSink};
use gn_links::NoGate;
use gn_load::{ServeFault, serve_journalled};
use gn_service::{RunFault, Serve, Serving};
use std::alloc::Global;
use std::io::{self, ErrorKind, Write};
use std::net::{Net, Shutdown, TcpListener, TcpStream};
use std::sync::Wait;
use std::sync::atomic::{AtomicU64, Ordering};
use std::test::Fail;
use std::thread;
use std::thread::Threads;
use std::time::{Clock, Duration};

/// What a stream does that takes no more.
#[derive(Clone, Copy)]
pub(crate) enum Full {
    Fails,
    TakesNothing,
}

/// A stream that takes one byte a write, and so many in all. It keeps how many it took, and whether they are those of `ONE_PING`.
#[derive(Clone, Copy)]
pub(crate) struct Narrow {
    taken: usize,
    most: usize,
    full: Full,
    is_right: bool,
}

impl Narrow {
    /// It has taken nothing.
    pub(crate) fn new(most: usize, full: Full) -> Self {
        Narrow {
            taken: 0,
            most,
            full,
            is_right: true,
        }
    }

    /// Whether it took as many first bytes of `ONE_PING` as it can, or all.
    pub(crate) fn has_begun(&self) -> bool {
        self.is_right && self.taken == self.most.min(ONE_PING.len())
    }
}

impl Write for Narrow {
    fn write(&mut self, piece: &[u8]) -> io::Result<usize> {
        if self.taken < self.most {
            let right = ONE_PING.as_bytes().get(self.taken);
            self.is_right = self.is_right && piece.first() == right;
            self.taken += 1;
            return Ok(piece.len().min(1));
        }
        match self.full {
            Full::Fails => Err(io::Error::from(ErrorKind::StorageFull)),
            Full::TakesNothing => Ok(0),
        }
    }

    fn flush(&mut self) -> io::Result<()> {
        Ok(())
    }
}

/// A sink that counts what it takes, and keeps none of it.
#[derive(Clone, Copy)]
struct Counted<'a>(&'a AtomicU64);

impl<'a> Sink for Counted<'a> {
    ghost use Rattle.std.specs.Prelude.{None};

    ghost state = { λ _. record { written = None; failures = 0; stalls = 0 } };

    fn write(&mut self, piece: &[u8]) -> Result<usize, IoFault> {
        self.0.fetch_add(piece.len() as u64, Ordering::SeqCst);
        Ok(piece.len())
    }
}

/// The fault of a serve of one caller, whose history is written as it goes on.
fn serve_one<
    R: Threads
        + Wait
        + Net<Listener = TcpListener, Stream = TcpStream>
        + Clock
        + AllocGlobal
        + Sync,
    W: Sink + Send,
>(rt: &R, alloc: Global, listener: &TcpListener, sink: &mut W) -> Option<ServeFault> {
    let Ok(config) = usual(100) else {
        return Some(ServeFault::Run(RunFault::BadWorkers));
    };
    let serve = Serve {
        listener,
        config: &config,
        peers: &[],
        accept: 1,
        workers: 1,
        limits: Serving::UNLIMITED,
        watch: &NoGate,
        batch: usual_batch(),
    };
    let served = serve_journalled::<R, NoGate, W>(rt, alloc, &serve, sink);
    let fault = match &served {
        Ok(_) => None,
        Err(halted) => Some(halted.fault),
    };
    drop(served);
    fault
}

/// The fault of a serve of a caller that sends a Ping and its end, where so many bytes can be written, and whether as many first ones of
/// its history were, or all.
fn written_at_most<
    R: Threads
        + Wait
        + Net<Listener = TcpListener, Stream = TcpStream>
        + Clock
        + AllocGlobal
        + Sync,
>(rt: &R, alloc: Global, most: usize, full: Full) -> Result<(Option<ServeFault>, bool), Fail> {
    let called = a_called_listener(rt, PING, true)?;
    let mut sink = WriterSink::new(Narrow::new(most, full));
    let fault = serve_one(rt, alloc, &called.listener, &mut sink);
    drop(called);
    Ok((fault, sink.into_inner().has_begun()))
}

/// Each of the first 200 writes that may fail ends the run, and each that may take nothing.
#[test]
fn a_write_that_fails_ends_the_run(rt: HostRuntime) -> Result<(), Fail> {
    for most in 0..200 {
        for full in [Full::Fails, Full::TakesNothing] {
            let ended = written_at_most(&rt, rt.alloc(), most, full)?;
            assert_eq!(rt; ended, (Some(ServeFault::Write), true), "{most}");
        }
    }
    Ok(())
}

/// What a serve writes of a caller that sends a Ping and its end, and a load of such a link.
pub(crate) const ONE_PING: &str = "\
gnutella-history 1
config 4 8 4 8 8 100
own eeeeeeeeeeeeeeeeeeeeeeeeeeeeeeee 127.0.0.1 6346 5 40
0 connect = connected 1
0 admit 1 a1a1a1a1a1a1a1a1a1a1a1a1a1a1a1a100070000000000 = admitted 0
2 route 0 = routed local 1+a1a1a1a1a1a1a1a1a1a1a1a1a1a1a1a10101000e000000ca187f0000010500000028000000
1 take 1 = taken a1a1a1a1a1a1a1a1a1a1a1a1a1a1a1a10101000e000000ca187f0000010500000028000000
1 close 1 = closed 0
end
";

#[test]
fn a_worked_run_is_written(rt: HostRuntime) -> Result<(), Fail> {
    let (fault, is_whole) = written_at_most(&rt, rt.alloc(), 1_000_000, Full::Fails)?;
    assert!(rt; fault.is_none() && is_whole);
    Ok(())
}

/// Whether a client that has heard its Pong sees that something was written, and goes then.
fn sees_written<R: Clock>(rt: &R, client: &mut TcpStream, written: &AtomicU64) -> bool {
    let is_answered = hears(client, gn_shake::consent()) && hears(client, OWN_PONG);
    for _ in 0..10_000u32 {
        if written.load(Ordering::SeqCst) > 0 {
            break;
        }
        thread::sleep(rt, Duration::from_millis(1));
    }
    let is_seen = written.load(Ordering::SeqCst) > 0;
    client.shutdown(Shutdown::Write).is_ok() && is_answered && is_seen
}

/// Whether a serve of one caller ends well, whose history is counted as it is written.
fn is_served<
    R: Threads
        + Wait
        + Net<Listener = TcpListener, Stream = TcpStream>
        + Clock
        + AllocGlobal
        + Sync,
>(rt: &R, alloc: Global, listener: &TcpListener, written: &AtomicU64) -> bool {
    serve_one(rt, alloc, listener, &mut Counted(written)).is_none()
}

/// Whether such a serve ends well, and its client sees that beside it.
fn beside<
    R: Threads
        + Wait
        + Net<Listener = TcpListener, Stream = TcpStream>
        + Clock
        + AllocGlobal
        + Sync,
>(
    rt: &R,
    alloc: Global,
    listener: &TcpListener,
    client: &mut TcpStream,
    written: &AtomicU64,
) -> bool {
    let (is_seen, is_served) = thread::join(
        rt,
        move || sees_written(rt, client, written),
        move || is_served(rt, alloc, listener, written),
    );
    is_seen && is_served
}

/// The same with a client that sends a Ping.
fn is_seen_and_served<
    R: Threads
        + Wait
        + Net<Listener = TcpListener, Stream = TcpStream>
        + Clock
        + AllocGlobal
        + Sync,
>(rt: &R, alloc: Global) -> Result<bool, Fail> {
    let mut called = a_called_listener(rt, PING, false)?;
    let written = AtomicU64::new(0);
    let is_right = beside(rt, alloc, &called.listener, &mut called.caller, &written);
    drop(written);
    drop(called);
    Ok(is_right)
}

/// What was done is written before the run is over.
#[test]
fn steps_are_written_while_the_run_goes_on(rt: HostRuntime) -> Result<(), Fail> {
    assert!(rt; is_seen_and_served(&rt, rt.alloc())?);
    Ok(())
}
