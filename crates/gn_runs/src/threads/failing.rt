//! Links that fail, are cut, come slowly or never end: what a run over each of them leaves.

mod endless;
mod rows;
mod slow;

use crate::threads::runs::run_of;
use gn_bodies::{ReaderEnd, WriterEnd};
use gn_links::{Link, MemoryLink, NoGate};
use gn_rules::Config;
use gn_run_fixtures::{a_report, left_of};
use slow::SlowWriter;
use std::alloc::Global;
use std::sync::Wait;
use std::test::Fail;
use std::thread::Threads;

/// What is looked at of what a run over one link left.
#[derive(Clone, Copy)]
struct Found {
    ends: (ReaderEnd, WriterEnd),
    /// The number of Admit events.
    admits: usize,
    /// Who made the only Close event; none where there is another number of them.
    closer: Option<u32>,
    /// Whether no connection is live at the end.
    is_all_closed: bool,
    /// How many of the first bytes of a text were written; none where something else was.
    written: Option<usize>,
}

/// How many of the first bytes of a text were written, and nothing else.
fn written_of(written: &[u8], text: &[u8]) -> Option<usize> {
    if text.starts_with(written) {
        Some(written.len())
    } else {
        None
    }
}

/// The only one of these.
fn only(closers: &[u32]) -> Option<u32> {
    match closers {
        [closer] => Some(*closer),
        _ => None,
    }
}

/// What a run over this link leaves, with one worker, and how many bytes of a text were written to the link.
fn run_over<K: Link<Origin = MemoryLink, Writer = SlowWriter>, R: Threads + Wait + Sync>(
    rt: &R,
    alloc: Global,
    config: &Config,
    link: K,
    text: &[u8],
) -> Result<Found, Fail>
where
    K::Reader: Send,
{
    let mut links = Vec::new(alloc);
    links.push(link)?;
    let report = a_report(run_of(rt, alloc, config, links, 1, &NoGate))?;
    let (left, writer) = left_of(alloc, report)?;
    Ok(Found {
        ends: left.ends,
        admits: left.admits,
        closer: only(left.closers.as_slice()),
        is_all_closed: left.is_all_closed(),
        written: written_of(writer.bytes(), text),
    })
}
