//! Runs of requests as lists of events: each router answers each event as the capture's text says.

use crate::asks::{Ask, Packet, event};
use crate::encoding::encoded;
use crate::request_runs::REQUEST_RUNS;
use crate::run::{Run, capture_of};
use gn_rules::{Config, Event, FreshRouter, Receipt, Refusal, run_events};
use gn_search::PlainRouter;
use gn_table_router::TableRouter;
use gn_text::{push_refusal, push_step_of};
use gn_wire::Kind;
use std::alloc::{AllocError, Allocator, Global};
use std::test::Fail;

/// A Query of ID b1 for "x", at its limits.
const QUERY: Packet = Packet {
    kind: Kind::Query,
    byte: 0xb1,
    ttl: 9,
    hops: 0xff,
    payload: b"\0\0x\0",
};

/// A Pong of ID a1 that has made a hop.
const PONG: Packet = Packet {
    kind: Kind::Pong,
    byte: 0xa1,
    ttl: 3,
    hops: 1,
    payload: b"\x01\0\x7f\0\0\x02\x01\0\0\0\x02\0\0\0",
};

/// The same of ID a2.
const SECOND_PONG: Packet = Packet { byte: 0xa2, ..PONG };

/// The events of each run that isn't statistics alone, in the order of the runs.
static EVENTS: [(&str, &[Ask]); 7] = [
    (
        "first_ping",
        &[
            Ask::Connect,
            Ask::Connect,
            Ask::Ping(1, 0xa1, 7, 0),
            Ask::Route(0),
        ],
    ),
    (
        "expired_ping",
        &[
            Ask::Connect,
            Ask::Connect,
            Ask::Connect,
            Ask::Ping(1, 0xa1, 1, 0),
            Ask::Route(0),
        ],
    ),
    (
        "ttl_and_hops_limits",
        &[
            Ask::Connect,
            Ask::Connect,
            Ask::Ping(1, 0xa1, 0, 0),
            Ask::Admit(1, QUERY),
            Ask::Ping(1, 0xa2, 9, 0xff),
            Ask::Route(0),
            Ask::Route(1),
            Ask::Route(2),
            Ask::Ping(1, 0xa1, 7, 0),
            Ask::Route(3),
        ],
    ),
    (
        "remembered_and_forgotten",
        &[
            Ask::Connect,
            Ask::Ping(1, 0xa1, 7, 0),
            Ask::Route(0),
            Ask::Ping(1, 0xa2, 7, 0),
            Ask::Route(1),
            Ask::Ping(1, 0xa1, 7, 0),
            Ask::Route(2),
            Ask::Ping(1, 0xa3, 7, 0),
            Ask::Route(3),
            Ask::Ping(1, 0xa1, 7, 0),
            Ask::Route(4),
        ],
    ),
    (
        "one_remembered",
        &[
            Ask::Connect,
            Ask::Connect,
            Ask::Ping(1, 0xa1, 7, 0),
            Ask::Route(0),
            Ask::Ping(1, 0xa2, 7, 0),
            Ask::Route(1),
            Ask::Admit(2, PONG),
            Ask::Route(2),
            Ask::Admit(2, SECOND_PONG),
            Ask::Route(3),
        ],
    ),
    (
        "pongs_go_back",
        &[
            Ask::Connect,
            Ask::Connect,
            Ask::Ping(1, 0xa1, 7, 0),
            Ask::Route(0),
            Ask::Admit(2, PONG),
            Ask::Route(1),
            Ask::Admit(2, PONG),
            Ask::Route(2),
            Ask::Take(1),
            Ask::Take(1),
        ],
    ),
    (
        "close_and_rejoin",
        &[
            Ask::Connect,
            Ask::Connect,
            Ask::Ping(1, 0xa1, 7, 0),
            Ask::Route(0),
            Ask::Close(1),
            Ask::Connect,
            Ask::Admit(2, PONG),
            Ask::Route(1),
            Ask::Take(3),
            Ask::Close(1),
        ],
    ),
];

/// The events that these are.
fn events<A: Allocator + Copy>(alloc: A, asks: &[Ask]) -> Result<Vec<Event<A>, A>, Fail> {
    let mut events = Vec::new(alloc);
    for ask in asks {
        events.push(event(alloc, ask)?)?;
    }
    Ok(events)
}

/// What is printed of events and their answers.
fn printed<A: Allocator + Copy>(
    alloc: A,
    events: &[Event<A>],
    answers: &[Result<Receipt<A>, Refusal>],
) -> Result<Vec<u8, A>, AllocError> {
    let mut text = Vec::new(alloc);
    for (event, answer) in events.iter().zip(answers) {
        match answer {
            Ok(receipt) => push_step_of(&mut text, 0, event, &receipt.reply)?,
            Err(refusal) => push_refusal(&mut text, *refusal)?,
        }
    }
    Ok(text)
}

/// What is printed of events and of a router's answers to them.
fn answered<A: Allocator + Copy, C: FreshRouter<A> + Drop>(
    alloc: A,
    config: &Config,
    events: &[Event<A>],
) -> Result<Vec<u8, A>, AllocError> {
    let mut core = C::make(alloc, config)?;
    let answers = run_events(alloc, &mut core, events);
    drop(core);
    let answers = answers?;
    let text = printed(alloc, events, answers.as_slice());
    drop(answers);
    text
}

/// What is printed of these events and of a router's answers to them.
fn answered_to<A: Allocator + Copy, C: FreshRouter<A> + Drop>(
    alloc: A,
    config: &Config,
    asks: &[Ask],
) -> Result<Vec<u8, A>, Fail> {
    let events = events(alloc, asks)?;
    let found = answered::<A, C>(alloc, config, events.as_slice());
    drop(events);
    Ok(found?)
}

/// The configuration of a run.
fn config_of(texts: Global, run: &Run) -> Result<Config, Fail> {
    let capture = capture_of(texts, texts, run)?;
    Ok(capture.config)
}

/// Fails with its name where a router doesn't answer the events as the run's text says.
fn answers_as<A: Allocator + Copy, C: FreshRouter<A> + Drop>(
    texts: Global,
    alloc: A,
    run: &Run,
    asks: &[Ask],
) -> Result<(), Fail> {
    let config = config_of(texts, run)?;
    let found = answered_to::<A, C>(alloc, &config, asks)?;
    let wanted = encoded(texts, run.printed)?;
    if found.as_slice() == wanted.as_bytes() {
        Ok(())
    } else {
        Err(Fail::from(run.name))
    }
}

/// Fails with the name of the first run whose events a router doesn't answer so.
fn answers_all<A: Allocator + Copy, C: FreshRouter<A> + Drop>(
    texts: Global,
    alloc: A,
) -> Result<(), Fail> {
    for (run, (name, asks)) in REQUEST_RUNS[2..].iter().zip(&EVENTS) {
        if run.name != *name {
            return Err(Fail::from(*name));
        }
        answers_as::<A, C>(texts, alloc, run, *asks)?;
    }
    Ok(())
}

/// The same of both routers, over any allocator.
fn both_answer_all<A: Allocator + Copy>(texts: Global, alloc: A) -> Result<(), Fail> {
    answers_all::<A, TableRouter<A>>(texts, alloc)?;
    answers_all::<A, PlainRouter<A>>(texts, alloc)
}

#[test]
fn events_are_answered_as_lines(rt: HostRuntime) -> Result<(), Fail> {
    both_answer_all(rt.alloc(), rt.alloc())
}
