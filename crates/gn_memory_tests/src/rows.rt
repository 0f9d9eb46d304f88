//! The runs at both routers, and the growths that their steps meet.

use crate::event_lists::growths_of_list;
use crate::histories::*;
use crate::steps::{Asked, growths_of};
use gn_fixtures::{FIRST_PING, Heap};
use gn_rules::Historian;
use gn_search::PlainRouter;
use gn_table_router::TableRouter;
use std::alloc::{Allocator, Global};
use std::test::Fail;

/// How a step is made, in which history, and the growths that each of its steps meets.
type Row = (Asked, &'static str, &'static [u64]);

/// At the router with tables. A step grows for its receipt, its packets, and where a table or the history is full.
const WITH_TABLES: [Row; 13] = [
    (Asked::Apply, FIRST_PING, &[2, 1, 8, 9]),
    (
        Asked::Apply,
        REMEMBERED_AND_FORGOTTEN,
        &[2, 8, 9, 0, 6, 0, 0, 0, 6, 0, 5],
    ),
    (
        Asked::Apply,
        ONE_REMEMBERED,
        &[2, 1, 8, 9, 1, 5, 0, 0, 1, 3],
    ),
    (Asked::Apply, PONGS_GO_BACK, &[2, 1, 8, 9, 1, 3, 0, 3, 1, 0]),
    (Asked::Apply, CLOSE_AND_REJOIN, &[2, 1, 8, 9, 1, 1, 0, 0]),
    (
        Asked::Apply,
        BUSY_AND_FULL_OUTPUT,
        &[2, 1, 8, 0, 10, 0, 5, 0, 1, 5],
    ),
    (Asked::Apply, ORIGINATED, &[2, 7, 8, 0, 4]),
    (
        Asked::Apply,
        FORGOTTEN_SERVENTS,
        &[2, 1, 1, 8, 8, 0, 8, 0, 5, 0, 3, 0, 3, 0, 3, 0, 1],
    ),
    (Asked::Route, FIRST_PING, &[9]),
    (Asked::Enter, FIRST_PING, &[2, 1, 8, 8]),
    (Asked::Enter, ORIGINATED, &[2, 6, 8, 0, 3]),
    (Asked::Add, FIRST_PING, &[2, 1, 8, 5]),
    (Asked::Add, ORIGINATED, &[2, 5, 8, 0, 2]),
];

/// At the router that searches its history, which is all that grows beside packets and receipts.
const IN_HISTORY: [Row; 9] = [
    (Asked::Apply, FIRST_PING, &[2, 0, 0, 4]),
    (Asked::Apply, PONGS_GO_BACK, &[2, 0, 0, 4, 1, 2, 0, 2, 1, 0]),
    (Asked::Apply, CLOSE_AND_REJOIN, &[2, 0, 0, 4, 1, 0, 0, 0]),
    (Asked::Apply, ORIGINATED, &[2, 2, 0, 0, 3]),
    (Asked::Route, FIRST_PING, &[4]),
    (Asked::Enter, FIRST_PING, &[2, 0, 0, 3]),
    (Asked::Enter, ORIGINATED, &[2, 1, 0, 0, 2]),
    (Asked::Add, FIRST_PING, &[2, 0, 0, 0]),
    (Asked::Add, ORIGINATED, &[2, 0, 0, 0, 1]),
];

/// A run as a list of events, and the growths that all of them meet.
type List = (&'static str, u64);

/// The growths at the router over tables.
const LISTS_WITH_TABLES: [List; 7] = [
    (FIRST_PING, 21),
    (EXPIRED_PING, 23),
    (TTL_AND_HOPS_LIMITS, 28),
    (REMEMBERED_AND_FORGOTTEN, 37),
    (ONE_REMEMBERED, 31),
    (PONGS_GO_BACK, 29),
    (CLOSE_AND_REJOIN, 23),
];

/// The growths at the router that searches its history.
const LISTS_IN_HISTORY: [List; 7] = [
    (FIRST_PING, 7),
    (EXPIRED_PING, 8),
    (TTL_AND_HOPS_LIMITS, 13),
    (REMEMBERED_AND_FORGOTTEN, 21),
    (ONE_REMEMBERED, 15),
    (PONGS_GO_BACK, 13),
    (CLOSE_AND_REJOIN, 8),
];

/// Whether each row meets its growths. An `Err` names the first that doesn't.
fn rows_meet<A: Allocator + Copy, C: Historian<A> + Drop>(
    out: Global,
    heap: &Heap,
    alloc: A,
    rows: &[Row],
) -> Result<(), Fail> {
    for (number, (asked, history, wanted)) in rows.iter().enumerate() {
        let met = growths_of::<A, C>(out, heap, alloc, *asked, history)?;
        if met.as_slice() != *wanted {
            return Err(Fail::new(format_args!("row {number}: {met:?}")));
        }
    }
    Ok(())
}

/// The same of lists of events.
fn lists_meet<A: Allocator + Copy, C: Historian<A> + Drop>(
    heap: &Heap,
    alloc: A,
    lists: &[List],
) -> Result<(), Fail> {
    for (number, (history, wanted)) in lists.iter().enumerate() {
        let met = growths_of_list::<A, C>(heap, alloc, history)?;
        if met != *wanted {
            return Err(Fail::new(format_args!("list {number}: {met}")));
        }
    }
    Ok(())
}

/// The same of both.
fn meet_all<A: Allocator + Copy, C: Historian<A> + Drop>(
    out: Global,
    heap: &Heap,
    alloc: A,
    rows: &[Row],
    lists: &[List],
) -> Result<(), Fail> {
    rows_meet::<A, C>(out, heap, alloc, rows)?;
    lists_meet::<A, C>(heap, alloc, lists)
}

/// The same at the router with tables, which is named for any allocator: one over the heap is dear to prove.
fn meet_with_tables<A: Allocator + Copy>(out: Global, heap: &Heap, alloc: A) -> Result<(), Fail> {
    meet_all::<A, TableRouter<A>>(out, heap, alloc, &WITH_TABLES, &LISTS_WITH_TABLES)
}

#[test]
fn steps_with_tables(rt: HostRuntime) -> Result<(), Fail> {
    let heap = Heap::new(rt.alloc());
    meet_with_tables(rt.alloc(), &heap, &heap)
}

/// The same at the router that searches its history.
fn meet_in_history<A: Allocator + Copy>(out: Global, heap: &Heap, alloc: A) -> Result<(), Fail> {
    meet_all::<A, PlainRouter<A>>(out, heap, alloc, &IN_HISTORY, &LISTS_IN_HISTORY)
}

#[test]
fn steps_in_history(rt: HostRuntime) -> Result<(), Fail> {
    let heap = Heap::new(rt.alloc());
    meet_in_history(rt.alloc(), &heap, &heap)
}
