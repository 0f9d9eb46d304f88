//! What several benchmarks need.

use bytes::Bytes;
use gn_wire::{Descriptor, Guid, Kind};
use std::io::{self, ErrorKind};
use std::rt::Runtime;
use std::time::Duration;

/// An ID of its own for each number.
pub(crate) fn numbered(number: u32) -> Guid {
    Guid(u128::from(number).to_be_bytes())
}

/// A Ping with the number's ID, which is answered and not passed on.
pub(crate) fn ping(number: u32) -> io::Result<Descriptor> {
    match Descriptor::new(numbered(number), Kind::Ping, 1, 0, Bytes::new()) {
        Ok(ping) => Ok(ping),
        Err(_) => Err(io::Error::from(ErrorKind::Other)),
    }
}

/// Writes the nanoseconds that each of so many calls took, by what was called and with how many entries or threads.
pub(crate) fn tell<R: Runtime>(
    rt: &R,
    calls: &str,
    size: u32,
    taken: Duration,
    count: u64,
) -> io::Result<()> {
    let each = taken.as_nanos() / u128::from(count.max(1));
    eprintln!(rt; "{calls} {size}: {each} ns")
}
