//! Small runs of many threads over memory links.

use gn_bodies::WriterEnd;
use gn_fixtures::OWN;
use gn_links::{Gate, Link, MemoryLink, NoGate};
use gn_report::Report;
use gn_rules::{Config, Counter};
use gn_run_fixtures::{Meeting, PacedLink, a_report, are_even, have_met, pings};
use gn_shake::Role;
use gn_table_router::TableRouter;
use gn_threads::{RunFault, run};
use std::alloc::{AllocError, Allocator, Global};
use std::process::Abort;
use std::sync::Wait;
use std::test::Fail;
use std::thread::Threads;

/// A plain link of so many Pings.
fn link_of(alloc: Global, number: u8, count: u8) -> Result<MemoryLink, AllocError> {
    Ok(MemoryLink::new(Role::Plain, pings(alloc, number, count)?, 4096))
}

/// So many plain links of so many Pings each.
pub(crate) fn plain_links(
    alloc: Global,
    links: u8,
    count: u8,
) -> Result<Vec<MemoryLink>, AllocError> {
    let mut all = Vec::new(alloc);
    for number in 0..links {
        all.push(link_of(alloc, number, count)?)?;
    }
    Ok(all)
}

/// What a run over the table router gives, of at most 256 links.
pub(crate) fn run_of<
    A: Allocator + Copy + Send + Sync,
    K: Link,
    G: Gate + Sync,
    R: Threads + Wait + Sync,
>(
    rt: &R,
    alloc: A,
    config: &Config,
    links: Vec<K, A>,
    workers: u32,
    gate: &G,
) -> Result<Report<K::Reader, K::Writer, A>, RunFault>
where
    K::Reader: Send,
    K::Writer: Send,
{
    if links.len() > 256 {
        drop(links);
        return Err(RunFault::NoMemory);
    }
    run::<TableRouter<A>, K, G, A, R>(rt, alloc, config, links, workers, gate)
}

/// The same with a history of at most 100,000 steps.
pub(crate) fn table_run<
    A: Allocator + Copy + Send + Sync,
    K: Link,
    G: Gate + Sync,
    R: Threads + Wait + Sync,
>(
    rt: &R,
    alloc: A,
    links: Vec<K, A>,
    workers: u32,
    gate: &G,
) -> Result<Report<K::Reader, K::Writer, A>, RunFault>
where
    K::Reader: Send,
    K::Writer: Send,
{
    let Ok(config) = Config::new(8, 1024, 64, 1024, 1024, 100_000, 0, 0, OWN) else {
        drop(links);
        return Err(RunFault::NoMemory);
    };
    run_of(rt, alloc, &config, links, workers, gate)
}

/// How many receipts all actors of a run have.
fn receipts_of<Rd, W>(report: &Report<Rd, W>) -> usize {
    let mut count = report.house.len();
    for link in &report.links {
        count = count.wrapping_add(link.reader_receipts.len());
        count = count.wrapping_add(link.writer_receipts.len());
    }
    for receipts in &report.workers {
        count = count.wrapping_add(receipts.len());
    }
    count
}

/// Whether a run has two workers of 300 receipts each, and each step its receipt.
fn is_shared<Rd: Drop, W: Drop>(report: Report<Rd, W>) -> bool {
    are_even(&report) & (receipts_of(&report) == report.history.len())
}

/// Fails unless a run of six links of a hundred Pings has two workers of 300 receipts each who meet at each route, and each
/// step its receipt.
fn share<R: Threads + Wait + Sync + Abort>(rt: &R, alloc: Global) -> Result<(), Fail> {
    let meeting = Meeting::new();
    let links = plain_links(alloc, 6, 100)?;
    let is_shared = is_shared(a_report(table_run(rt, alloc, links, 2, &meeting))?);
    assert!(rt; is_shared && have_met(&meeting, 300));
    Ok(())
}

#[test]
fn two_workers_meet(rt: HostRuntime) -> Result<(), Fail> {
    share(&rt, rt.alloc())
}

/// How the writers of two links ended.
fn writer_ends<Rd: Drop, W: Drop>(report: Report<Rd, W>) -> Option<(WriterEnd, WriterEnd)> {
    match report.links.as_slice() {
        [first, second] => Some((first.writer_end, second.writer_end)),
        _ => None,
    }
}

/// Two links of one Ping each, to the first of which no byte can be written.
fn half_broken(alloc: Global) -> Result<Vec<MemoryLink>, AllocError> {
    let first = link_of(alloc, 0, 1)?.failing(None, Some(1));
    let second = link_of(alloc, 1, 1)?;
    Ok(vec![in alloc; first, second]?)
}

/// Fails unless a write fails on the first of them alone.
fn break_first<R: Threads + Wait + Sync + Abort>(rt: &R, alloc: Global) -> Result<(), Fail> {
    let links = half_broken(alloc)?;
    let ends = writer_ends(a_report(table_run(rt, alloc, links, 1, &NoGate))?);
    assert_eq!(rt; ends, Some((WriterEnd::WriteFailed, WriterEnd::Drained)));
    Ok(())
}

/// Each link's own Pong is queued to it, whatever the schedule.
#[test]
fn writes_fail_on_their_own_link(rt: HostRuntime) -> Result<(), Fail> {
    break_first(&rt, rt.alloc())
}

/// A plain link of so many Pings, read byte by byte; or one that can't be split, where it has no meeting.
fn paced_link<'a>(
    alloc: Global,
    number: u8,
    count: u8,
    meeting: Option<&'a Meeting>,
) -> Result<PacedLink<'a, MemoryLink>, AllocError> {
    Ok(PacedLink {
        link: MemoryLink::new(Role::Plain, pings(alloc, number, count)?, 1),
        meeting,
        is_first: number == 0,
    })
}

/// Two such links, of which the second may have no meeting.
fn paced_links<'a>(
    alloc: Global,
    count: u8,
    first: &'a Meeting,
    second: Option<&'a Meeting>,
) -> Result<Vec<PacedLink<'a, MemoryLink>>, AllocError> {
    let first = paced_link(alloc, 0, count, Some(first))?;
    let second = paced_link(alloc, 1, count, second)?;
    Ok(vec![in alloc; first, second]?)
}

/// Fails unless a run of two such links of ten Pings each routes all of them, and their readers meet at each read.
fn read_in_step<R: Threads + Wait + Sync + Abort>(rt: &R, alloc: Global) -> Result<(), Fail> {
    let meeting = Meeting::new();
    let links = paced_links(alloc, 10, &meeting, Some(&meeting))?;
    let report = a_report(table_run(rt, alloc, links, 1, &NoGate))?;
    let routed = report.stats.get(Counter::Routed);
    drop(report);
    assert!(rt; routed == 20 && have_met(&meeting, 231));
    Ok(())
}

/// Ten Pings of 23 bytes, and the read that finds no more, on both sides alike: nobody waits for one that has ended.
#[test]
fn two_readers_meet(rt: HostRuntime) -> Result<(), Fail> {
    read_in_step(&rt, rt.alloc())
}

/// The fault of a run by so many workers over two links, of which the second can't be split.
fn fault_by<R: Threads + Wait + Sync>(
    rt: &R,
    alloc: Global,
    workers: u32,
) -> Result<Option<RunFault>, Fail> {
    let meeting = Meeting::new();
    let links = paced_links(alloc, 0, &meeting, None)?;
    Ok(table_run(rt, alloc, links, workers, &NoGate).err())
}

/// The numbers of workers by which no run begins over such links, and its fault.
const NO_RUNS: [(u32, RunFault); 3] = [
    (0, RunFault::BadWorkers),
    (65, RunFault::BadWorkers),
    (1, RunFault::Link(1)),
];

/// Fails at the first of these by which a run has another fault.
fn begin_none<R: Threads + Wait + Sync + Abort>(rt: &R, alloc: Global) -> Result<(), Fail> {
    for (workers, fault) in NO_RUNS {
        let found = fault_by(rt, alloc, workers)?;
        assert_eq!(rt; found, Some(fault), "{workers} workers");
    }
    Ok(())
}

/// A run has 1 to 64 workers, and names a link that can't be split.
#[test]
fn runs_that_do_not_begin(rt: HostRuntime) -> Result<(), Fail> {
    begin_none(&rt, rt.alloc())
}
