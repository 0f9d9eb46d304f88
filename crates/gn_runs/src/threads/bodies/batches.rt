//! Writers that take one packet at a time, and two; and a reader that admits two descriptors at once.

use super::{Ends, Setting, Told, USUAL, run_link, run_plain};
use gn_bodies::{ReaderEnd, WriterEnd};
use gn_fixtures::OWN_PONG;
use gn_links::MemoryLink;
use gn_shake::Role;
use std::alloc::Global;
use std::process::Abort;
use std::sync::Wait;
use std::test::Fail;

/// Two Pings, with TTL 7 and Hops 0.
const PINGS: &[u8] =
    b"\xa1\xa1\xa1\xa1\xa1\xa1\xa1\xa1\xa1\xa1\xa1\xa1\xa1\xa1\xa1\xa1\x00\x07\x00\x00\x00\x00\x00\
\xa2\xa2\xa2\xa2\xa2\xa2\xa2\xa2\xa2\xa2\xa2\xa2\xa2\xa2\xa2\xa2\x00\x07\x00\x00\x00\x00\x00";

/// The own Pongs that answer them, with TTL 1 and Hops 0.
const PONGS: &[u8] =
    b"\xa1\xa1\xa1\xa1\xa1\xa1\xa1\xa1\xa1\xa1\xa1\xa1\xa1\xa1\xa1\xa1\x01\x01\x00\x0e\x00\x00\x00\xca\x18\x7f\x00\x00\x01\x05\x00\x00\x00\x28\x00\x00\x00\
\xa2\xa2\xa2\xa2\xa2\xa2\xa2\xa2\xa2\xa2\xa2\xa2\xa2\xa2\xa2\xa2\x01\x01\x00\x0e\x00\x00\x00\xca\x18\x7f\x00\x00\x01\x05\x00\x00\x00\x28\x00\x00\x00";

/// The most packets of a batch, how the writer ends whose second write fails, and what it has written.
const BATCHES: [(u32, WriterEnd, &[u8]); 2] = [
    (1, WriterEnd::WriteFailed, OWN_PONG),
    (2, WriterEnd::Drained, PONGS),
];

/// Whether the writer of a link of these Pings, whose second write fails, ends so with such a batch, and has written this.
fn writes<R: Wait>(
    rt: &R,
    alloc: Global,
    batch: u32,
    end: WriterEnd,
    written: &[u8],
) -> Result<bool, Fail> {
    let link = MemoryLink::new(Role::Plain, PINGS.to_vec(alloc)?, 4096).failing(None, Some(2));
    let setting = Setting {
        batch,
        written: (b"", written),
        ..USUAL
    };
    let ran = run_link(rt, alloc, setting, link)?;
    Ok(ran.ends == (Ok(ReaderEnd::Bytes), Ok(()), Ok(end)) && ran.is_written)
}

/// Fails where a batch isn't written as it must.
fn write_all<R: Wait + Abort>(rt: &R, alloc: Global) -> Result<(), Fail> {
    for (batch, end, written) in BATCHES {
        assert!(rt;
            writes(rt, alloc, batch, end, written)?,
            "a batch of {batch}"
        );
    }
    Ok(())
}

#[test]
fn a_batch_is_one_write(rt: HostRuntime) -> Result<(), Fail> {
    write_all(&rt, rt.alloc())
}

/// What a gate is told of a link of these Pings that is read once.
const READ_ONCE: Told = [
    "connected",
    "admitted",
    "admitted",
    "closed",
    "passed",
    "passed",
    "",
    "",
];

/// Fails unless a reader that may make one read admits both Pings and closes, and they are routed all the same.
fn read_once<R: Wait + Abort>(rt: &R, alloc: Global) -> Result<(), Fail> {
    let once = Setting {
        turns: 1,
        batch: 2,
        ..USUAL
    };
    let ran = run_plain(rt, alloc, once, PINGS)?;
    let closed: Ends = (Ok(ReaderEnd::Turns), Ok(()), Ok(WriterEnd::Closed));
    assert!(rt; ran.ends == closed && ran.told == READ_ONCE);
    Ok(())
}

#[test]
fn one_read_of_two_pings(rt: HostRuntime) -> Result<(), Fail> {
    read_once(&rt, rt.alloc())
}
