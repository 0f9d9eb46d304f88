//! The links of the worked runs, run by many threads.

use crate::run::{Run, all_runs, capture_of};
use gn_capture::Line;
use gn_links::{Link, MemoryLink, NoGate};
use gn_rules::Config;
use gn_shake::Role;
use gn_table_router::TableRouter;
use gn_threads::run;
use std::alloc::{AllocError, Allocator, Global};
use std::sync::Wait;
use std::test::Fail;
use std::thread::Threads;

/// The bytes that the lines give to a link.
fn bytes_of(alloc: Global, lines: &[(u64, Line)], number: u32) -> Result<Vec<u8>, AllocError> {
    let mut all = Vec::new(alloc);
    for (_, line) in lines {
        if let Line::Piece { link, bytes } = line {
            if *link == number {
                all.extend_from_slice(bytes.as_slice())?;
            }
        }
    }
    Ok(all)
}

/// The links that the lines make, each with all its bytes, 4,096 at a time, or one by one.
fn links_of(
    alloc: Global,
    lines: &[(u64, Line)],
    is_cut: bool,
) -> Result<Vec<MemoryLink>, AllocError> {
    let mut links = Vec::new(alloc);
    let mut number = 0u32;
    for (_, line) in lines {
        let role = match line {
            Line::Join => Role::Plain,
            Line::Greeted => Role::Accepting,
            _ => continue,
        };
        number = number.saturating_add(1);
        let bytes = bytes_of(alloc, lines, number)?;
        let piece = if is_cut { 1 } else { 4096 };
        links.push(MemoryLink::new(role, bytes, piece))?;
    }
    Ok(links)
}

/// Whether so many links have a report. That its history is legal is proved. The router is named for any allocator, since one
/// over Global is dear to prove.
fn are_run<A: Allocator + Copy + Send + Sync, K: Link, R: Threads + Wait + Sync>(
    rt: &R,
    alloc: A,
    config: &Config,
    links: Vec<K, A>,
    workers: u32,
) -> bool
where
    K::Reader: Send,
    K::Writer: Send,
{
    if links.len() > 256 {
        drop(links);
        return false;
    }
    let ran = run::<TableRouter<A>, K, NoGate, A, R>(rt, alloc, config, links, workers, &NoGate);
    ran.is_ok()
}

/// Few and many workers, and whether the bytes come one by one.
static WAYS: [(u32, bool); 6] = [
    (1, false),
    (1, true),
    (2, false),
    (2, true),
    (16, false),
    (16, true),
];

/// Whether the links of these lines are run in each way.
fn are_run_in_each_way<R: Threads + Wait + Sync>(
    rt: &R,
    alloc: Global,
    config: &Config,
    lines: &[(u64, Line)],
) -> Result<bool, AllocError> {
    let mut all_run = true;
    for (workers, is_cut) in &WAYS {
        let links = links_of(alloc, lines, *is_cut)?;
        all_run = are_run(rt, alloc, config, links, *workers) && all_run;
    }
    Ok(all_run)
}

/// Fails with its name where the links of a run aren't run in each way.
fn is_run<R: Threads + Wait + Sync>(rt: &R, alloc: Global, row: &Run) -> Result<(), Fail> {
    let capture = capture_of(alloc, alloc, row)?;
    let are_run = are_run_in_each_way(rt, alloc, &capture.config, capture.lines.as_slice());
    match are_run {
        Ok(true) => Ok(()),
        _ => Err(Fail::from(row.name)),
    }
}

/// The same of all runs.
fn all_run<R: Threads + Wait + Sync>(rt: &R, alloc: Global) -> Result<(), Fail> {
    for rows in all_runs() {
        for row in rows {
            // what joins and comes fills these histories
            if !row.name.starts_with("history_full") {
                is_run(rt, alloc, row)?;
            }
        }
    }
    Ok(())
}

#[test]
fn rows_run(rt: HostRuntime) -> Result<(), Fail> {
    all_run(&rt, rt.alloc())
}
