//! A full history, found where no memory is left for what the threads give back.

use crate::threads::runs::run_of;
use gn_fixtures::{Heap, usual};
use gn_links::{Gate, MemoryLink};
use gn_run_fixtures::{Meeting, PacedLink};
use gn_shake::{Role, request};
use gn_threads::RunFault;
use std::alloc::{AllocError, Allocator, Global};
use std::sync::Wait;
use std::test::Fail;
use std::thread::Threads;

/// Leaves no memory once a run has failed.
#[derive(Drop)]
struct Miser<'a> {
    heap: &'a Heap,
}

impl<'a> Gate for Miser<'a> {
    fn enter<R: Wait>(&self, _rt: &R, _worker: u32, _ticket: u32) {}

    fn failed(&self) {
        self.heap.refuse_from(0);
    }
}

/// A link of these bytes, read in step with another.
fn link_of<'a>(
    alloc: Global,
    role: Role,
    bytes: &[u8],
    meeting: &'a Meeting,
) -> Result<PacedLink<'a, MemoryLink>, AllocError> {
    Ok(PacedLink {
        link: MemoryLink::new(role, bytes.to_vec(alloc)?, 4096),
        meeting: Some(meeting),
        is_first: matches!(role, Role::Accepting),
    })
}

/// A greeted link and a plain one, which give nothing, in a list that has its memory from this allocator.
fn two_links<'a, A: Allocator>(
    alloc: Global,
    poor: A,
    meeting: &'a Meeting,
) -> Result<Vec<PacedLink<'a, MemoryLink>, A>, AllocError> {
    let first = link_of(alloc, Role::Accepting, request(), meeting)?;
    let second = link_of(alloc, Role::Plain, b"", meeting)?;
    Ok(vec![in poor; first, second]?)
}

/// The fault of a run over both of at most one step, which has its memory from this allocator of that heap.
fn fault_of_two<A: Allocator + Copy + Send + Sync, R: Threads + Wait + Sync>(
    rt: &R,
    alloc: Global,
    heap: &Heap,
    poor: A,
) -> Option<RunFault> {
    let Ok(config) = usual(1) else {
        return None;
    };
    let meeting = Meeting::new();
    let links = two_links(alloc, poor, &meeting).ok()?;
    run_of(rt, poor, &config, links, 1, &Miser { heap }).err()
}

/// Whether that fault is named though the heap refused memory.
fn is_named<A: Allocator + Copy + Send + Sync, R: Threads + Wait + Sync>(
    rt: &R,
    alloc: Global,
    heap: &Heap,
    poor: A,
) -> bool {
    let fault = fault_of_two(rt, alloc, heap, poor);
    let has_refused = heap.has_refused();
    heap.refuse_none();
    fault == Some(RunFault::HistoryFull) && has_refused
}

/// The plain link connects before its first read, and makes the only step. The reader of the greeted one, whose first read comes
/// no sooner, finds the history full, and there is no memory for what the writers give back.
#[test]
fn a_full_history_is_named_without_memory(rt: HostRuntime) -> Result<(), Fail> {
    let heap = Heap::new(rt.alloc());
    assert!(rt; is_named(&rt, rt.alloc(), &heap, &heap));
    Ok(())
}
