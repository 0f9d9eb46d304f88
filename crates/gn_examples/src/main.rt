//! Each case of a table, as `command` answers it, compared with the files that have what is wanted.
#![tactic(auto)]

mod answers;
mod case;
mod conformance;
mod faults;
mod neighbours;
mod notation;
mod progressed;
mod set;
mod streams;
mod watched;

use answers::{Answer, answer_to};
use conformance::try_set;
use gn_io::WriterSink;
use gn_program::refuse_words;
use neighbours::Neighbour;
use std::io::{ErrorKind, StdinLock};
use std::net::{Ipv4Addr, Net, SocketAddr, TcpListener, TcpStream};
use std::random::RandomSource;
use std::rt::Files;
use std::sync::Wait;
use std::thread::Threads;
use std::time::{Clock, Duration, Instant};
use std::{fs, io, str, thread};
use streams::{Given, Taken};

/// A port that is taken while a serve asks for it.
const TAKEN: u16 = 26_349;

/// What a caller says first.
const GREETING: &[u8] = b"GNUTELLA CONNECT/0.4\n\n";

/// What a command answers beside the router's neighbour, where there is one: it calls the router, or the router calls it.
fn answer_beside<
    R: Threads
        + Wait
        + Net<Listener = TcpListener, Stream = TcpStream>
        + Clock
        + Input<Reader = StdinLock<'static>>
        + RandomSource
        + Sync
        + AllocGlobal,
>(
    rt: &R,
    words: &[&str],
    input: Given<'_>,
    fails: (bool, bool),
    neighbour: Option<Neighbour<'_>>,
) -> Answer {
    let Some(neighbour) = neighbour else {
        return answer_to(rt, words, input, fails);
    };
    let called = port_of(words, "--peer=127.0.0.1:");
    let port = if called == 0 {
        port_of(words, "--port=")
    } else {
        called
    };
    // that a neighbour fails shows in what the router says
    let (_, answered) = thread::join(
        rt,
        || neighbour.act(rt, port).is_ok(),
        || answer_to(rt, words, input, fails),
    );
    answered
}

/// The largest input, and a byte more.
const TOO_LARGE: usize = 67_108_865;

/// The text of an input: `-` is the empty one, `large` one that is a byte too large, and else a file's.
fn text_of<R: Files + AllocGlobal>(rt: &R, name: &str) -> io::Result<Vec<u8>> {
    match name {
        "-" | "fails" => Ok(Vec::new(rt.alloc())),
        "large" => Ok(vec![in rt.alloc(); b'#'; TOO_LARGE]?),
        _ => fs::read(rt, name),
    }
}

/// Whether a text is a pattern's: its parts between stars in this order, with anything between them.
fn is_like(text: &str, pattern: &str) -> bool {
    let mut rest = Some(text);
    let mut is_first = true;
    for part in pattern.split('*') {
        rest = match rest {
            Some(rest) if is_first => rest.strip_prefix(part),
            Some(rest) => rest.split_once(part).map(|found| found.1),
            None => None,
        };
        is_first = false;
    }
    rest == Some("")
}

/// Whether a text is as stated: empty at `-` and where its stream fails, at `begins:FILE` it begins as the file, at
/// `like:FILE` it is that of the pattern there, and else it is the file's.
fn is_as<R: Files + AllocGlobal>(rt: &R, text: &[u8], stated: &str) -> io::Result<bool> {
    match stated.split_once(":") {
        Some(("begins", name)) => Ok(text.starts_with(text_of(rt, name)?.as_slice())),
        Some(("like", name)) => {
            let pattern = fs::read_to_string(rt, name)?;
            Ok(str::from_utf8(text).is_ok_and(|text| is_like(text, pattern.as_str())))
        }
        _ => Ok(text == text_of(rt, stated)?.as_slice()),
    }
}

/// The port that an option of the words names, as `--port=6346` or `--peer=127.0.0.1:6346`; 0, where none does.
fn port_of(words: &[&str], option: &str) -> u16 {
    for word in words {
        if let Some(port) = word.strip_prefix(option) {
            return port.parse().unwrap_or(0);
        }
    }
    0
}

/// Whether a command answers as a case says: by its status, its input, what is printed, the faults, and its words. Each of
/// the three streams `fails`, or is as stated for its text; at `audit:..` the verdict of what is printed is. In place of an input
/// may stand what the router's neighbour does, and with what bytes, as `sends:FILE`.
fn is_as_wanted<
    R: Threads
        + Wait
        + Net<Listener = TcpListener, Stream = TcpStream>
        + Clock
        + Input<Reader = StdinLock<'static>>
        + RandomSource
        + Sync
        + Files
        + AllocGlobal,
>(rt: &R, case: &str) -> io::Result<bool> {
    let fields: Vec<&str> = case.split(' ').collect(rt.alloc())?;
    let [status, input, printed, faults, words @ ..] = fields.as_slice() else {
        return Ok(false);
    };
    let bytes = text_of(rt, input.split_once(":").map_or(*input, |named| named.1))?;
    let neighbour = input
        .split_once(":")
        .and_then(|named| Neighbour::of(named.0, bytes.as_slice()));
    let given = match neighbour {
        Some(_) => Given::new(&[], false),
        None => Given::new(bytes.as_slice(), *input == "fails"),
    };
    let fails = (*printed == "fails", *faults == "fails");
    let Answer {
        status: ended,
        printed: text,
        faults: faulted,
    } = answer_beside(rt, words, given, fails, neighbour);
    let is_printed = match printed.strip_prefix("audit:") {
        Some(verdict) => {
            let history = Given::new(text.as_slice(), false);
            let audited = answer_to(rt, &["gn", "audit"], history, (false, false));
            is_as(rt, audited.printed.as_slice(), verdict)?
        }
        None => is_as(rt, text.as_slice(), printed)?,
    };
    let is_faulted = is_as(rt, faulted.as_slice(), faults)?;
    Ok(status.parse::<u8>() == Ok(ended) && is_printed && is_faulted)
}

/// Whether words that can't be had for this reason are refused with this status and the fault of this file.
fn are_refused<R: Files + AllocGlobal>(
    rt: &R,
    kind: ErrorKind,
    status: u8,
    fault: &str,
) -> io::Result<bool> {
    let mut faults = WriterSink::new(Taken::new(rt.alloc(), false));
    let found = refuse_words(&io::Error::from(kind), &mut faults);
    Ok(found == status && is_as(rt, faults.into_inner().text.as_slice(), fault)?)
}

/// How many seconds a router has given its neighbour below, more than where none are asked for.
const GRACE: u64 = 6;

/// After how many seconds that router is stopped.
const STOP: u64 = 1;

/// Whether a stopped router waits for its neighbour, which holds on, as long as `--grace` asks for.
fn is_graced<
    R: Threads
        + Wait
        + Net<Listener = TcpListener, Stream = TcpStream>
        + Clock
        + Input<Reader = StdinLock<'static>>
        + RandomSource
        + Sync
        + AllocGlobal,
>(rt: &R) -> io::Result<bool> {
    let words: &[&str] = &[
        "gn",
        "serve",
        "--port=26360",
        "--accept=1",
        "--workers=1",
        "--for=1",
        "--grace=6",
    ];
    let neighbour = Neighbour::of("holds", GREETING);
    let begun = Instant::now(rt)?;
    let answered = answer_beside(rt, words, Given::new(&[], false), (false, false), neighbour);
    let took = begun.elapsed(rt)?;
    Ok(answered.status == 0 && took >= Duration::from_secs(STOP + GRACE))
}

/// Prints of a case whether it is as wanted.
fn print<R: Print>(rt: &R, case: &str, is_right: bool) -> io::Result<()> {
    let stated = if is_right {
        "as wanted"
    } else {
        "not as wanted"
    };
    println!(rt; "{case}: {stated}")
}

fn main(rt: HostRuntime) -> io::Result<()> {
    let _taken = rt.bind(SocketAddr::from((Ipv4Addr::LOCALHOST, TAKEN)))?;
    let cases = fs::read_to_string(&rt, "cases/table")?;
    for case in cases.lines() {
        print(&rt, case, is_as_wanted(&rt, case)?)?;
    }
    for (kind, status, fault) in [
        (ErrorKind::OutOfMemory, 1, "cases/no_memory.fault"),
        (ErrorKind::InvalidData, 2, "cases/no_text.fault"),
    ] {
        let are_refused = are_refused(&rt, kind, status, fault)?;
        print(&rt, fault, are_refused)?;
    }
    let is_graced = is_graced(&rt)?;
    print(
        &rt,
        "a neighbour has the grace that is asked for",
        is_graced,
    )?;
    let are_shown = progressed::are_shown(&rt);
    print(&rt, "progress is shown in its lines", are_shown)?;
    let are_told = watched::are_told(&rt);
    print(
        &rt,
        "a watch is told of what it is asked to watch",
        are_told,
    )?;
    let are_written = faults::are_written(&rt)?;
    print(&rt, "each fault has its line", are_written)?;
    try_set(&rt)
}
