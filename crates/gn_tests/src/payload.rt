//! Payloads byte for byte, both ways: Queries and Query Hits. And payloads by their kinds.

use crate::compare::wrong_at;
use gn_payload::*;
use gn_wire::{Guid, Kind};
use std::alloc::Global;
use std::test::Fail;

/// The servent of each Query Hit.
const SERVENT: Guid = Guid([0x5e; 16]);

/// Two results, one without extra bytes and one with.
const RESULTS: [HitResult<'static>; 2] = [
    HitResult {
        file: 1,
        size: 10,
        name: b"a",
        extra: b"",
    },
    HitResult {
        file: 2,
        size: 20,
        name: b"b",
        extra: b"z",
    },
];

/// Payloads, each with the Query that it is.
static QUERIES: [(&[u8], Option<Query<'static>>); 8] = [
    (
        b"\0\0x\0",
        Some(Query {
            speed: 0,
            text: b"x",
            tail: b"",
        }),
    ),
    (
        b"\0\0abc\0\x1c",
        Some(Query {
            speed: 0,
            text: b"abc",
            tail: b"\x1c",
        }),
    ),
    (
        b"\x02\x01\0",
        Some(Query {
            speed: 258,
            text: b"",
            tail: b"",
        }),
    ),
    (
        b"\0\0\0\0",
        Some(Query {
            speed: 0,
            text: b"",
            tail: b"\0",
        }),
    ),
    (b"", None),
    (b"\0", None),
    (b"\0\0", None),
    (b"\0\0x", None),
];

/// Whether these bytes are written of a Query.
fn is_written_as(alloc: Global, query: &Query<'_>, bytes: &[u8]) -> bool {
    let mut out = Vec::new(alloc);
    let written = write_query(query.speed, query.text, query.tail, &mut out);
    let is_same = out.as_slice() == bytes;
    drop(out);
    written.is_ok() && is_same
}

/// Whether a payload is read as this Query, and written of it.
fn is_query(alloc: Global, bytes: &[u8], query: Option<Query<'_>>) -> bool {
    let is_written = match &query {
        Some(query) => is_written_as(alloc, query, bytes),
        None => true,
    };
    is_written && read_query(bytes) == query
}

/// Fails at the first row that isn't as it says.
fn are_queries(alloc: Global) -> Result<(), Fail> {
    for (number, (bytes, query)) in QUERIES.iter().enumerate() {
        if !is_query(alloc, *bytes, *query) {
            return Err(wrong_at(number));
        }
    }
    Ok(())
}

#[test]
fn queries(rt: HostRuntime) -> Result<(), Fail> {
    are_queries(rt.alloc())
}

/// A Query Hit's payload, of 127.0.0.2 at port 6346, of speed 28, and what is read of it.
struct HitRow {
    payload: &'static [u8],
    results: &'static [HitResult<'static>],
    /// How many results there are.
    count: u8,
    /// Their bytes.
    result_bytes: &'static [u8],
    /// What stands after them.
    trailer: &'static [u8],
}

/// One without results, and one with two.
static HITS: [HitRow; 2] = [
    HitRow {
        payload: b"\0\xca\x18\x7f\0\0\x02\x1c\0\0\0\
            \x5e\x5e\x5e\x5e\x5e\x5e\x5e\x5e\x5e\x5e\x5e\x5e\x5e\x5e\x5e\x5e",
        results: &[],
        count: 0,
        result_bytes: b"",
        trailer: b"",
    },
    HitRow {
        payload: b"\x02\xca\x18\x7f\0\0\x02\x1c\0\0\0\
            \x01\0\0\0\x0a\0\0\0a\0\0\x02\0\0\0\x14\0\0\0b\0z\0LIME\
            \x5e\x5e\x5e\x5e\x5e\x5e\x5e\x5e\x5e\x5e\x5e\x5e\x5e\x5e\x5e\x5e",
        results: &RESULTS,
        count: 2,
        result_bytes: b"\x01\0\0\0\x0a\0\0\0a\0\0\x02\0\0\0\x14\0\0\0b\0z\0",
        trailer: b"LIME",
    },
];

/// Whether a Query Hit has a row's results.
fn has_results(hit: &Hit<'_>, wanted: &[HitResult<'_>]) -> bool {
    let mut left = wanted.iter();
    for result in hit.results() {
        if left.next() != Some(&result) {
            return false;
        }
    }
    left.next().is_none()
}

/// Whether a Query Hit has the fields of a row, and those that all have.
fn has_fields(hit: &Hit<'_>, row: &HitRow) -> bool {
    (hit.hits(), hit.port(), hit.speed()) == (row.count, 6346, 28)
        && (hit.ip(), hit.servent()) == ([127, 0, 0, 2], SERVENT)
        && (hit.result_bytes(), hit.trailer()) == (row.result_bytes, row.trailer)
}

/// Whether a row's payload is read as it says.
fn is_read(row: &HitRow) -> bool {
    match read_hit(row.payload) {
        Some(hit) => {
            let has_fields = has_fields(&hit, row);
            let has_results = has_results(&hit, row.results);
            has_fields && has_results && servent_of_hit(row.payload) == SERVENT
        }
        None => false,
    }
}

/// Whether a row's payload is written of what it says.
fn is_written(alloc: Global, row: &HitRow) -> bool {
    let mut out = Vec::new(alloc);
    let written = write_hit(
        6346,
        [127, 0, 0, 2],
        28,
        row.results,
        row.trailer,
        SERVENT,
        &mut out,
    );
    let is_same = out.as_slice() == row.payload;
    drop(out);
    written.is_ok() && is_same
}

/// Fails at the first row that isn't as it says.
fn are_hits(alloc: Global) -> Result<(), Fail> {
    for (number, row) in HITS.iter().enumerate() {
        if !is_read(row) || !is_written(alloc, row) {
            return Err(wrong_at(number));
        }
    }
    Ok(())
}

#[test]
fn hits(rt: HostRuntime) -> Result<(), Fail> {
    are_hits(rt.alloc())
}

/// Payloads by their kinds, and what is said of each.
static KINDS: [(Kind, &[u8], Option<&[u8]>); 5] = [
    (Kind::Query, b"\0\0x\0", Some(b"x")),
    (Kind::Pong, b"\0\0x\0", None),
    (Kind::Ping, b"", Some(b"a Ping")),
    (Kind::Ping, b"\0\0x\0", None),
    (Kind::Unknown(2), b"\0\0x\0", None),
];

/// What a payload is read as: the text of a Query, or the name of another kind.
fn said(kind: Kind, bytes: &[u8]) -> Option<&[u8]> {
    match read_payload(kind, bytes)? {
        Payload::Query(query) => Some(query.text),
        Payload::Ping => Some(b"a Ping"),
        _ => Some(b"another"),
    }
}

#[test]
fn payloads_by_kind() -> Result<(), Fail> {
    for (number, (kind, bytes, wanted)) in KINDS.iter().enumerate() {
        if said(*kind, *bytes) != *wanted {
            return Err(wrong_at(number));
        }
    }
    Ok(())
}
