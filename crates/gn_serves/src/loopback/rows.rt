//! Runs over the loopback, row by row, and what must be found of each.

use super::{Ends, Run, Seen, seen_of};
use std::alloc::Global;
use std::net::{Net, TcpListener, TcpStream};
use std::process::Abort;
use std::sync::Wait;
use std::test::Fail;
use std::thread::Threads;
use std::time::Clock;

/// A run, and what must be found of it.
pub(crate) struct Row {
    pub(crate) run: Run,
    /// How many steps it makes, unless time decides it.
    pub(crate) steps: Option<usize>,
    /// What it counts, in the order of `Seen`, where that is asked for.
    pub(crate) counts: Option<[u32; 6]>,
    /// How each of its links ends.
    pub(crate) ends: [Option<Ends>; 4],
}

/// Whether that is found.
fn is_found(seen: &Seen, row: &Row) -> bool {
    row.steps.unwrap_or(seen.steps) == seen.steps
        && row.counts.unwrap_or(seen.counts) == seen.counts
        && row.ends == seen.ends
}

/// Makes these runs, one after another, and ends the test where another thing is found of one.
pub(crate) fn all_are_found<
    R: Threads
        + Wait
        + Net<Listener = TcpListener, Stream = TcpStream>
        + Sync
        + Abort
        + Clock
        + AllocGlobal,
>(rt: &R, alloc: Global, rows: &[Row]) -> Result<(), Fail> {
    for (number, row) in rows.iter().enumerate() {
        let seen = seen_of(rt, alloc, &row.run)?;
        assert!(rt; is_found(&seen, row), "row {number}");
    }
    Ok(())
}
