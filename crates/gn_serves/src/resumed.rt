//! Serves that go on with steps of before.

ghost use Rattle.std.specs.Prelude.{true};

use crate::batch::usual_batch;
use crate::wanted::a_called_listener;
use gn_fixtures::usual;
use gn_io::{Sink, WriterSink};
use gn_links::NoGate;
use gn_load::serve_past_journalled;
use gn_report::LinkAccount;
use gn_rules::{Event, Receipt, Refusal, Reply, is_same_reply};
use gn_service::{Any, Parting, Past, Recall, RunFault, Serve, Serving, Stop};
use gn_tcp::{TcpReader, TcpWriter};
use std::alloc::{Allocator, Global};
use std::net::{Net, TcpListener, TcpStream};
use std::sync::Wait;
use std::test::Fail;
use std::thread::Threads;
use std::time::{Clock, Duration};

/// How the history of a run begins that makes these steps again, and that somebody has called before.
const HISTORY: &str = "\
gnutella-history 1
config 4 8 4 8 8 10000
own eeeeeeeeeeeeeeeeeeeeeeeeeeeeeeee 127.0.0.1 6346 5 40
0 connect = connected 1
0 connect = connected 2
0 close 1 = closed 0
0 close 2 = closed 0
3 connect = connected 3
";

/// Learns nothing.
struct Nobody;

impl Parting<Global> for Nobody {
    fn left(&self, _link: u32, _account: &LinkAccount<TcpReader<'_>, TcpWriter>) {}
}

/// Two links that were connected, the later with this number, of which one has gone; the other one is let go.
#[derive(Drop)]
struct Before {
    made: u32,
    second: u32,
}

/// Whether this is answered, and as before, where that is known.
fn is_as_before<A: Allocator>(recall: &Recall<A>, answer: &Result<Receipt<A>, Refusal>) -> bool {
    match (&recall.reply, answer) {
        (_, Err(_)) => false,
        (Some(reply), Ok(receipt)) => is_same_reply(reply, &receipt.reply),
        (None, Ok(_)) => true,
    }
}

impl Past for Before {
    ghost recalls = { λ _. true };

    fn recall<A: Allocator + Copy>(&mut self, _alloc: A) -> Result<Option<Recall<A>>, RunFault> {
        let (event, reply) = match self.made {
            0 => (Event::Connect, Some(Reply::Connected(1))),
            1 => (Event::Connect, Some(Reply::Connected(self.second))),
            2 => (Event::Close(1), Some(Reply::Closed(0))),
            3 => (Event::Close(2), None),
            _ => return Ok(None),
        };
        self.made = self.made.wrapping_add(1);
        Ok(Some(Recall { event, reply }))
    }

    fn recalled<A: Allocator + Copy>(
        &mut self,
        recall: Recall<A>,
        answer: Result<Receipt<A>, Refusal>,
    ) -> Result<(), RunFault> {
        let is_as_before = is_as_before(&recall, &answer);
        drop(answer);
        drop(recall);
        if is_as_before {
            Ok(())
        } else {
            Err(RunFault::NoMemory)
        }
    }
}

/// Whether a serve ends well that goes on with these steps, is called by somebody, and is stopped by this.
fn ends_well<
    R: Threads
        + Wait
        + Net<Listener = TcpListener, Stream = TcpStream>
        + Clock
        + AllocGlobal
        + Sync,
    W: Sink + Send,
>(rt: &R, alloc: Global, listener: &TcpListener, stop: &Stop, past: Before, sink: &mut W) -> bool {
    let Ok(config) = usual(10_000) else {
        return false;
    };
    let serve = Serve {
        listener,
        config: &config,
        peers: &[],
        accept: Any {
            leaving: &Nobody,
            again: false,
            pings: None,
            callers_a_minute: None,
        },
        workers: 2,
        limits: Serving {
            stop: Some(stop),
            ..Serving::UNLIMITED
        },
        watch: &NoGate,
        batch: usual_batch(),
    };
    let served = serve_past_journalled(rt, alloc, &serve, past, sink);
    let ends_well = served.is_ok();
    drop(served);
    ends_well
}

/// Whether such a serve ends well, and whether its history begins as it has to. The later connection had this number before; who calls
/// says no more than the greeting.
fn is_resumed<
    R: Threads
        + Wait
        + Net<Listener = TcpListener, Stream = TcpStream>
        + Clock
        + AllocGlobal
        + Sync,
>(rt: &R, alloc: Global, second: u32) -> Result<(bool, bool), Fail> {
    let called = a_called_listener(rt, b"", true)?;
    let stop = Stop::new(Some(Duration::from_secs(1)), false);
    let before = Before { made: 0, second };
    let mut sink = WriterSink::new(Vec::new(alloc));
    let ends_well = ends_well(rt, alloc, &called.listener, &stop, before, &mut sink);
    drop(stop);
    drop(called);
    let written = sink.into_inner();
    let is_begun = written.starts_with(HISTORY.as_bytes());
    drop(written);
    Ok((ends_well, is_begun))
}

/// The steps of before are the first of the history, which the house makes, in order; who calls is let in after them.
#[test]
fn steps_of_before_come_first(rt: HostRuntime) -> Result<(), Fail> {
    let (ends_well, is_begun) = is_resumed(&rt, rt.alloc(), 2)?;
    assert!(rt; ends_well && is_begun);
    Ok(())
}

/// Where the rules answer otherwise than before, who knows these steps ends the run.
#[test]
fn other_replies_end_the_run(rt: HostRuntime) -> Result<(), Fail> {
    let (ends_well, _) = is_resumed(&rt, rt.alloc(), 7)?;
    assert!(rt; !ends_well);
    Ok(())
}
