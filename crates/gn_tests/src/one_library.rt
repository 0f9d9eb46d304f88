//! Programs that stand on tineflax alone.

use std::alloc::{AllocError, Allocator, Global};
use std::sync::Wait;
use std::test::Fail;
use std::thread::Threads;
use tineflax::capture::write_history;
use tineflax::frames::Reassembler;
use tineflax::greeting::Role;
use tineflax::links::{Link, MemoryLink, NoGate};
use tineflax::replay::audit;
use tineflax::router::{PlainRouter, TableRouter, legal};
use tineflax::rules::{
    Config, Event, FreshRouter, Historian, Legality, Own, Reply, RouterCore, Step,
};
use tineflax::run::run;
use tineflax::streams::{ReaderSource, WriterSink};
use tineflax::wire::{Descriptor, Guid};

/// The router's own servent.
const OWN: Own = Own {
    servent: Guid([0xee; 16]),
    ip: [127, 0, 0, 1],
    port: 6346,
    files: 5,
    kbytes: 40,
};

/// A Ping with TTL 7.
const PING: &[u8] = b"0123456789abcdef\x00\x07\x00\x00\x00\x00\x00";

/// The Pong that answers it.
const PONG: &[u8] =
    b"0123456789abcdef\x01\x01\x00\x0e\x00\x00\x00\xca\x18\x7f\x00\x00\x01\x05\x00\x00\x00\x28\x00\x00\x00";

/// Appends the packets that a reply sends, one after another.
fn push_sent<A: Allocator>(out: &mut Vec<u8, A>, reply: &Reply<A>) -> Result<(), AllocError> {
    if let Reply::Routed { sends, .. } = reply {
        for sending in sends.as_slice() {
            sending.packet.write_to(out)?;
        }
    }
    Ok(())
}

/// The last of these descriptors.
fn last_of<A: Allocator>(mut descriptors: Vec<Descriptor<A>, A>) -> Result<Descriptor<A>, Fail> {
    let last = descriptors.pop();
    drop(descriptors);
    match last {
        Some(descriptor) => Ok(descriptor),
        None => Err(Fail::from("a descriptor")),
    }
}

/// The last descriptor that these bytes encode.
fn descriptor_of<A: Allocator + Copy>(alloc: A, bytes: &[u8]) -> Result<Descriptor<A>, Fail> {
    let mut frames = Reassembler::new(alloc)?;
    match frames.feed(bytes) {
        Ok(fed) => last_of(fed.descriptors),
        Err(_) => Err(Fail::from("an answer")),
    }
}

/// Appends what a router sends as it answers an event.
fn push_answer<A: Allocator + Copy>(
    out: &mut Vec<u8, A>,
    router: &mut PlainRouter<A>,
    event: Event<A>,
) -> Result<(), Fail> {
    match &router.apply(0, &event) {
        Ok(receipt) => Ok(push_sent(out, &receipt.reply)?),
        Err(_) => Err(Fail::from("a reply")),
    }
}

/// Admits and routes the Ping on a new connection, and appends what the router sends.
fn push_pong<A: Allocator + Copy>(
    alloc: A,
    out: &mut Vec<u8, A>,
    router: &mut PlainRouter<A>,
) -> Result<(), Fail> {
    push_answer(out, router, Event::Connect)?;
    push_answer(out, router, Event::Admit(1, descriptor_of(alloc, PING)?))?;
    push_answer(out, router, Event::Route(0))
}

/// The configuration of both programs.
fn usual() -> Result<Config, Fail> {
    Ok(Config::new(4, 8, 4, 8, 8, 100, 0, 0, OWN)?)
}

/// Fails where a router doesn't answer the Ping with the Pong, or its history isn't legal.
fn answers_ping<A: Allocator + Copy>(alloc: A) -> Result<(), Fail> {
    let config = usual()?;
    let mut router = PlainRouter::<A>::make(alloc, &config)?;
    let mut sent = Vec::new(alloc);
    let answered = push_pong(alloc, &mut sent, &mut router);
    let history = router.into_history();
    let legality = legal(&config, history.as_slice());
    let is_pong = sent.as_slice() == PONG;
    drop(history);
    drop(sent);
    answered?;
    if is_pong && legality == Legality::Legal {
        Ok(())
    } else {
        Err(Fail::from("the Pong, and a legal history"))
    }
}

#[test]
fn a_ping_is_answered(rt: HostRuntime) -> Result<(), Fail> {
    answers_ping(rt.alloc())
}

/// The steps of a run of these links by two workers.
fn steps_of<A: Allocator + Copy + Send + Sync, K: Link, R: Threads + Wait + Sync>(
    rt: &R,
    alloc: A,
    config: &Config,
    links: Vec<K, A>,
) -> Result<Vec<Step<A>, A>, Fail>
where
    K::Reader: Send,
    K::Writer: Send,
{
    if links.len() > 256 {
        drop(links);
        return Err(Fail::from("at most 256 links"));
    }
    match run::<TableRouter<A>, K, NoGate, A, R>(rt, alloc, config, links, 2, &NoGate) {
        Ok(report) => {
            drop(report.links);
            drop(report.workers);
            drop(report.house);
            Ok(report.history)
        }
        Err(_) => Err(Fail::from("a report")),
    }
}

/// The history of a run of a link that sends that Ping.
fn history_of<R: Threads + Wait + Sync>(
    rt: &R,
    alloc: Global,
    config: &Config,
) -> Result<Vec<u8>, Fail> {
    let link = MemoryLink::new(Role::Plain, PING.to_vec(alloc)?, 4096);
    let steps = steps_of(rt, alloc, config, vec![in alloc; link]?)?;
    let mut history = Vec::new(alloc);
    let written = write_history(config, steps.as_slice(), &mut history);
    drop(steps);
    written?;
    Ok(history)
}

/// Whether an audit at the router with tables finds a history of five steps legal. The router is named for any
/// allocator, since one over Global is dear to prove.
fn is_audited<A: Allocator + Copy>(alloc: A, history: &[u8]) -> bool {
    let mut source = ReaderSource::new(history);
    let mut sink = WriterSink::new(Vec::new(alloc));
    let known = audit::<A, TableRouter<A>, _, _>(alloc, &mut source, &mut sink);
    let stated = sink.into_inner();
    let is_stated = stated.as_slice() == b"legal 5\n".as_slice();
    drop(stated);
    is_stated && known == Ok(Legality::Legal)
}

/// Fails where that isn't so of the history of that run.
fn is_run_audited<R: Threads + Wait + Sync>(rt: &R, alloc: Global) -> Result<(), Fail> {
    let history = history_of(rt, alloc, &usual()?)?;
    let is_audited = is_audited(alloc, history.as_slice());
    drop(history);
    if is_audited {
        Ok(())
    } else {
        Err(Fail::from("an audit of five steps"))
    }
}

#[test]
fn a_run_is_audited(rt: HostRuntime) -> Result<(), Fail> {
    is_run_audited(&rt, rt.alloc())
}
