//! Captures: the first fault of each kind, and the most links.

use crate::compare::wrong_at;
use gn_capture::{CaptureRefusal, Cause, read_capture};
use std::alloc::{AllocError, Global};
use std::test::Fail;

/// Texts that begin so and end with one of these lines, and the line and the cause of their first fault.
type Faults = (&'static str, &'static str, u64, Cause);

/// Each cause of a fault, at the first line where it can stand.
static FAULTS: [Faults; 21] = [
    ("", "", 1, Cause::Header),
    ("\n\n", "", 3, Cause::Header),
    ("gnutella-capture 9", "", 1, Cause::Header),
    ("# a\n\ngnutella-capture 01\nconfig", "", 3, Cause::Header),
    ("gnutella-capture 1\r\n", "", 1, Cause::Header),
    ("#\ngnutella-capture 1 \n", "", 2, Cause::Header),
    ("gnutella-capture 1", "", 2, Cause::Config),
    ("gnutella-capture 1\n# a\n", "", 3, Cause::Config),
    (
        "gnutella-capture 1\n\nconfig 0 8 4 8 8 100\n",
        "",
        3,
        Cause::Config,
    ),
    (
        "gnutella-capture 1\nconfig 4 8 4 8 8 100\n#\n",
        "",
        4,
        Cause::Own,
    ),
    (
        "gnutella-capture 1\n",
        "config 0 8 4 8 8 100\nconfig 257 8 4 8 8 100\nconfig 64 65537 4 8 8 100\n\
        config 64 65536 65537 8 8 100\nconfig 64 65536 65536 4097 8 100\nconfig 64 65536 65536 4096 4097 100\n\
        config 64 65536 65536 4096 4096 4294967296\nconfig 4 8 4 8 8\nconfig 4 8 4 8 8 100 1\n\
        config 4 8 4 8 8 100 \nown",
        2,
        Cause::Config,
    ),
    (
        "gnutella-capture 2\n",
        "config 4 8 4 8 8 100\nconfig 4 8 4 8 8 100 256\nconfig 4 8 4 8 8 100 -\nconfig 4 8 4 8 8 100 4 0",
        2,
        Cause::Config,
    ),
    (
        "gnutella-capture 3\n",
        "config 4 8 4 8 8 100\nconfig 4 8 4 8 8 100 4\nconfig 4 8 4 8 8 100 4 4097\n\
        config 4 8 4 8 8 100 256 1\nconfig 4 8 4 8 8 100 4 1 1",
        2,
        Cause::Config,
    ),
    (
        "gnutella-capture 1\nconfig 256 65536 65536 4096 4096 4294967295\n",
        "own ee 127.0.0.1 6346 5 40\nown eeeeeeeeeeeeeeeeeeeeeeeeeeeeeeee 127.0.0.256 6346 5 40\n\
        own eeeeeeeeeeeeeeeeeeeeeeeeeeeeeeee 127.0.0.1 65536 5 40\njoin",
        3,
        Cause::Own,
    ),
    (
        "gnutella-capture 4\n",
        "config 4 8 4 8 8 100 0 0",
        1,
        Cause::Header,
    ),
    (
        "gnutella-capture 5\n",
        "config 4 8 4 8 8 100\nconfig 4 8 4 8 8 100 4\nconfig 4 8 4 8 8 100 4 4097\nconfig 4 8 4 8 8 100 4 1 1",
        2,
        Cause::Config,
    ),
    (
        "gnutella-capture 5\nconfig 4 8 4 8 8 100 0 0\nown eeeeeeeeeeeeeeeeeeeeeeeeeeeeeeee 127.0.0.1 6346 5 40\nroute all\n",
        "route All\nroute \nroute 4294967296",
        5,
        Cause::Field,
    ),
    (
        JOINED,
        " data 1 00\nJoin\njump\n\x00\n\u{e9}\nadmit 1 00\ngnutella-capture 1\n\r",
        5,
        Cause::Word,
    ),
    (
        JOINED,
        "data 3 00 00\ndata  1 00\ndata 1 00 \ndata 1\t00\njoin 1\nopen 1\nroute\nclose 1 2\n\
        ping d1\nquery d3d3d3d3d3d3d3d3d3d3d3d3d3d3d3d3 7 0\nstats 1",
        5,
        Cause::Fields,
    ),
    (
        JOINED,
        "data 1 0\ndata 3 0\ndata 1 \ndata 1 00\r\ndata +1 00\nroute 4294967296\ntake -1\nroute all\nping d1 5\n\
        ping d1d1d1d1d1d1d1d1d1d1d1d1d1d1d1d1 256\nquery d3d3d3d3d3d3d3d3d3d3d3d3d3d3d3d3 7 65536 78\n\
        query d3d3d3d3d3d3d3d3d3d3d3d3d3d3d3d3 256 0 78\nquery d3d3d3d3d3d3d3d3d3d3d3d3d3d3d3d3 7 0 7800\n\
        query d3d3d3d3d3d3d3d3d3d3d3d3d3d3d3d3 7 0 7",
        5,
        Cause::Field,
    ),
    (JOINED, "data 3 00\ndata 0 00\ndata 2 -", 5, Cause::Link),
];

/// The lines that a capture begins with, and a link.
const JOINED: &str =
    "gnutella-capture 1\nconfig 4 8 4 8 8 100\nown eeeeeeeeeeeeeeeeeeeeeeeeeeeeeeee 127.0.0.1 6346 5 40\njoin\n";

/// The line and the cause of the fault of a capture of these two parts.
fn fault(alloc: Global, head: &str, rest: &str) -> Result<Option<(u64, Cause)>, AllocError> {
    let text = format!(in alloc; "{head}{rest}")?;
    let refusal = read_capture(alloc, text.as_bytes()).err();
    drop(text);
    Ok(match refusal {
        Some(CaptureRefusal::Fault(fault)) => Some((fault.line, fault.cause)),
        _ => None,
    })
}

/// Whether each of the texts has its fault.
fn are_found(alloc: Global, texts: &Faults) -> Result<bool, AllocError> {
    let (head, lines, at, cause) = *texts;
    for line in lines.split('\n') {
        if fault(alloc, head, line)? != Some((at, cause)) {
            return Ok(false);
        }
    }
    Ok(true)
}

/// Fails at the first row that isn't as it says.
fn all_are_found(alloc: Global) -> Result<(), Fail> {
    for (number, texts) in FAULTS.iter().enumerate() {
        if !are_found(alloc, texts)? {
            return Err(wrong_at(number));
        }
    }
    Ok(())
}

#[test]
fn the_first_fault_is_named(rt: HostRuntime) -> Result<(), Fail> {
    all_are_found(rt.alloc())
}

/// A capture of as many links as there may be.
fn full(alloc: Global) -> Result<String, AllocError> {
    let mut text = JOINED.to_string(alloc)?;
    for i in 1u32..256 {
        text.push_str(if i % 2 == 0 { "join\n" } else { "open\n" })?;
    }
    text.push_str("data 256 -\n")?;
    Ok(text)
}

/// Last lines, and the line and the cause of the fault of that capture with each.
static LAST: [(&str, Option<(u64, Cause)>); 5] = [
    ("", None),
    ("join", Some((261, Cause::Link))),
    ("open", Some((261, Cause::Link))),
    ("join 1", Some((261, Cause::Fields))),
    ("data 257 -", Some((261, Cause::Link))),
];

/// Fails at the first of these lines that hasn't its fault.
fn are_last(alloc: Global, full: &str) -> Result<(), Fail> {
    for (number, (line, wanted)) in LAST.iter().enumerate() {
        if fault(alloc, full, *line)? != *wanted {
            return Err(wrong_at(number));
        }
    }
    Ok(())
}

#[test]
fn the_most_links(rt: HostRuntime) -> Result<(), Fail> {
    let text = full(rt.alloc())?;
    are_last(rt.alloc(), text.as_str())
}
