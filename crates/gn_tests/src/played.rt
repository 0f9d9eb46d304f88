//! Each run, replayed on each router: its text byte for byte, and its history written, read back and audited.

use crate::compare::same;
use crate::encoding::encoded;
use crate::histories::is_written_as;
use crate::run::{Run, all_runs, capture_of};
use gn_capture::{read_history, write_history};
use gn_io::{ReaderSource, WriterSink};
use gn_replay::{audit, play};
use gn_rules::{Historian, Legality};
use gn_search::PlainRouter;
use gn_table_router::TableRouter;
use gn_witness::legal;
use std::alloc::{AllocError, Allocator, Global};
use std::process::Abort;
use std::test::Fail;

/// How many steps a history has that is read, where they are legal.
fn legal_steps(alloc: Global, written: &[u8]) -> Option<usize> {
    let Ok((config, steps)) = read_history(alloc, written) else {
        return None;
    };
    let legality = legal(&config, steps.as_slice());
    let count = steps.len();
    drop(steps);
    if legality == Legality::Legal {
        Some(count)
    } else {
        None
    }
}

/// Whether an audit finds a history legal, and states this of it.
fn is_audited<A: Allocator + Copy, C: Historian<A> + Drop>(
    texts: Global,
    alloc: A,
    written: &[u8],
    stated: &[u8],
) -> bool {
    let mut source = ReaderSource::new(written);
    let mut sink = WriterSink::new(Vec::new(texts));
    let known = audit::<A, C, _, _>(alloc, &mut source, &mut sink);
    let found = sink.into_inner();
    let is_stated = found.as_slice() == stated;
    drop(found);
    is_stated && known == Ok(Legality::Legal)
}

/// Whether a history of legal steps is written again as it is read, and audited.
fn is_kept<A: Allocator + Copy, C: Historian<A> + Drop>(
    texts: Global,
    alloc: A,
    written: &[u8],
) -> Result<bool, AllocError> {
    let Some(steps) = legal_steps(texts, written) else {
        return Ok(false);
    };
    let line = format!(in texts; "legal {steps}\n")?;
    let is_audited = is_audited::<A, C>(texts, alloc, written, line.as_bytes());
    drop(line);
    Ok(is_audited && is_written_as(texts, written, written))
}

/// A router's history, written.
fn history_of<A: Allocator + Copy, C: Historian<A>>(
    texts: Global,
    core: &C,
) -> Result<Vec<u8>, AllocError> {
    let mut written = Vec::new(texts);
    write_history(core.config(), core.history(), &mut written)?;
    Ok(written)
}

/// Plays a run, and compares what is printed. The router's history after all events, written.
fn history_after<A: Allocator + Copy, C: Historian<A> + Drop, R: Abort + AllocGlobal>(
    rt: &R,
    alloc: A,
    run: &Run,
    wanted: &[u8],
) -> Result<Vec<u8>, Fail> {
    let capture = capture_of(rt.alloc(), alloc, run)?;
    let mut sink = WriterSink::new(Vec::new(rt.alloc()));
    let played = play::<A, C, _>(alloc, capture, &mut sink);
    let found = sink.into_inner();
    same(rt, run.name, &found, wanted);
    drop(found);
    match &played {
        Ok(replayed) => Ok(history_of::<A, C>(rt.alloc(), &replayed.core)?),
        Err(_) => Err(Fail::from(run.name)),
    }
}

/// Replays a run, and compares its text, its history and the verdict on that.
fn plays<A: Allocator + Copy, C: Historian<A> + Drop, R: Abort + AllocGlobal>(
    rt: &R,
    alloc: A,
    run: &Run,
) -> Result<(), Fail> {
    let printed = encoded(rt.alloc(), run.printed)?;
    let written = history_after::<A, C, R>(rt, alloc, run, printed.as_bytes())?;
    drop(printed);
    let is_kept = is_kept::<A, C>(rt.alloc(), alloc, &written);
    drop(written);
    if is_kept? {
        Ok(())
    } else {
        Err(Fail::from(run.name))
    }
}

/// The same for each run of the three lists.
fn all_play<A: Allocator + Copy, C: Historian<A> + Drop, R: Abort + AllocGlobal>(
    rt: &R,
    alloc: A,
) -> Result<(), Fail> {
    for runs in all_runs() {
        for run in runs {
            plays::<A, C, R>(rt, alloc, run)?;
        }
    }
    Ok(())
}

/// All runs at the router with tables, over any allocator: one over Global is dear to prove.
fn all_play_with_tables<A: Allocator + Copy, R: Abort + AllocGlobal>(
    rt: &R,
    alloc: A,
) -> Result<(), Fail> {
    all_play::<A, TableRouter<A>, R>(rt, alloc)
}

#[test]
fn on_the_table_router(rt: HostRuntime) -> Result<(), Fail> {
    all_play_with_tables(&rt, rt.alloc())
}

/// The same at the router that searches its history.
fn all_play_in_history<A: Allocator + Copy, R: Abort + AllocGlobal>(
    rt: &R,
    alloc: A,
) -> Result<(), Fail> {
    all_play::<A, PlainRouter<A>, R>(rt, alloc)
}

#[test]
fn on_the_plain_router(rt: HostRuntime) -> Result<(), Fail> {
    all_play_in_history(&rt, rt.alloc())
}
