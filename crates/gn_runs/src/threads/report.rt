//! The report of the worked run, and what `flaw` names where a part of it is changed.

ghost use Rattle.std.specs.Prelude.{◌≡◌, ◌+◌};
ghost use Rattle.gn_actors.specs.Tallies.{last_place, no_tally, tally_of};

use crate::threads::runs::table_run;
use gn_actors::Tally;
use gn_bodies::{ReaderEnd, WriterEnd};
use gn_fixtures::{PING, ping};
use gn_links::{MemoryLink, MemoryReader, MemoryWriter, NoGate};
use gn_report::*;
use gn_rules::{Event, Receipt, Reply, Stats, Step};
use gn_run_fixtures::a_report;
use gn_shake::Role;
use gn_trail::Trail;
use std::alloc::{AllocError, Global};
use std::sync::Wait;
use std::test::Fail;
use std::thread::Threads;

/// The report of the worked run.
type Worked = Report<MemoryReader, MemoryWriter>;

/// The report of a run of a link that sends one Ping.
fn worked<R: Threads + Wait + Sync>(rt: &R, alloc: Global) -> Result<Worked, Fail> {
    let link = MemoryLink::new(Role::Plain, PING.to_vec(alloc)?, 4096);
    a_report(table_run(rt, alloc, vec![in alloc; link]?, 1, &NoGate))
}

/// Whom `flaw` names in the report of a run of one plain link; nobody's number, where there isn't one link.
fn flaw_in<Rd, W>(report: &Report<Rd, W>) -> Option<u32> {
    if report.links.len() != 1 {
        return Some(u32::MAX);
    }
    report.flaw(&[Role::Plain])
}

/// A change of the worked run: whether its worker has no receipts, and how its link's bodies ended.
struct Change {
    is_emptied: bool,
    read: ReaderEnd,
    wrote: WriterEnd,
    /// Whom `flaw` names then.
    actor: Option<u32>,
}

/// None, and one of each kind.
const CHANGES: [Change; 4] = [
    Change {
        is_emptied: false,
        read: ReaderEnd::Bytes,
        wrote: WriterEnd::Drained,
        actor: None,
    },
    Change {
        is_emptied: true,
        read: ReaderEnd::Bytes,
        wrote: WriterEnd::Drained,
        actor: Some(2),
    },
    Change {
        is_emptied: false,
        read: ReaderEnd::Bytes,
        wrote: WriterEnd::Closed,
        actor: Some(1),
    },
    Change {
        is_emptied: false,
        read: ReaderEnd::NotLive,
        wrote: WriterEnd::Drained,
        actor: Some(0),
    },
];

/// Changes how the bodies of these links ended.
fn change_ends<Rd, W>(links: &mut [LinkReport<Rd, W>], change: &Change) {
    if let Some(link) = links.first_mut() {
        link.reader_end = change.read;
        link.writer_end = change.wrote;
    }
}

/// Takes the first worker's receipts away.
fn empty(workers: &mut [Vec<Receipt>]) {
    if let Some(receipts) = workers.first_mut() {
        receipts.clear();
    }
}

/// Whom `flaw` names in the worked run, changed so.
fn flaw_after<R: Threads + Wait + Sync>(
    rt: &R,
    alloc: Global,
    change: &Change,
) -> Result<Option<u32>, Fail> {
    let mut report = worked(rt, alloc)?;
    change_ends(report.links.as_mut_slice(), change);
    if change.is_emptied {
        empty(report.workers.as_mut_slice());
    }
    Ok(flaw_in(&report))
}

/// The first change after which `flaw` names another actor than it must.
fn wrong_change<R: Threads + Wait + Sync>(rt: &R, alloc: Global) -> Result<Option<usize>, Fail> {
    for (i, change) in CHANGES.iter().enumerate() {
        if flaw_after(rt, alloc, change)? != change.actor {
            return Ok(Some(i));
        }
    }
    Ok(None)
}

#[test]
fn a_changed_part_of_the_worked_run_names_its_actor(rt: HostRuntime) -> Result<(), Fail> {
    assert_eq!(rt; wrong_change(&rt, rt.alloc())?, None);
    Ok(())
}

/// Whom `flaw` names in the worked run with a step of an actor that it doesn't have.
fn flaw_with_a_stranger<R: Threads + Wait + Sync>(
    rt: &R,
    alloc: Global,
) -> Result<Option<u32>, Fail> {
    let mut report = worked(rt, alloc)?;
    let _ = report.history.push(Step {
        actor: 4,
        event: Event::Connect,
        reply: Reply::Connected(2),
    });
    Ok(flaw_in(&report))
}

#[test]
fn the_house_is_named_for_a_stranger(rt: HostRuntime) -> Result<(), Fail> {
    assert_eq!(rt; flaw_with_a_stranger(&rt, rt.alloc())?, Some(3));
    Ok(())
}

/// The receipt of a reader that connects, admits a Ping and closes, at this index. None where there is no Ping.
fn read_at(index: u32) -> Option<Receipt> {
    let (event, reply) = match index {
        0 => (Event::Connect, Reply::Connected(1)),
        1 => (Event::Admit(1, ping(0xa1, 7, 0).ok()?), Reply::Admitted(0)),
        _ => (Event::Close(1), Reply::Closed(0)),
    };
    Some(Receipt {
        index,
        event,
        reply,
    })
}

/// What the reader was answered.
fn read(alloc: Global) -> Result<Vec<Receipt>, AllocError> {
    let mut receipts = Vec::new(alloc);
    for index in 0..3 {
        receipts.push(read_at(index).ok_or(AllocError)?)?;
    }
    Ok(receipts)
}

/// The steps that it made.
fn steps(alloc: Global) -> Result<Vec<Step>, AllocError> {
    let mut history = Vec::new(alloc);
    for receipt in read(alloc)? {
        let Receipt { event, reply, .. } = receipt;
        history.push(Step {
            actor: 0,
            event,
            reply,
        })?;
    }
    Ok(history)
}

/// What a link did whose reader did that, and whose writer did nothing.
fn unrouted_link(alloc: Global) -> Result<LinkReport<(), ()>, AllocError> {
    let reader_receipts = read(alloc)?;
    Ok(LinkReport {
        conn: conn_of(reader_receipts.as_slice()),
        reader_end: ReaderEnd::ReadFailed,
        reader_receipts,
        reader: (),
        writer_end: WriterEnd::Closed,
        writer_receipts: Vec::new(alloc),
        writer: (),
    })
}

/// Whom `flaw` names in the report of a run of that link, whose worker did nothing.
fn flaw_of_unrouted(alloc: Global) -> Result<Option<u32>, Fail> {
    let link = unrouted_link(alloc)?;
    let report = Report {
        history: steps(alloc)?,
        links: vec![in alloc; link]?,
        workers: vec![in alloc; Vec::new(alloc)]?,
        house: Vec::new(alloc),
        stats: Stats::new(),
    };
    Ok(flaw_in(&report))
}

#[test]
fn the_house_is_named_for_a_ticket(rt: HostRuntime) -> Result<(), Fail> {
    assert_eq!(rt; flaw_of_unrouted(rt.alloc())?, Some(3));
    Ok(())
}

/// What is known of who made one step alone, a Close at this index.
fn closed_at(index: u32) -> Unkept<Receipt>
    ensures place { last_place result.items ≡ index + 1 }
    ensures tally { tally_of result.items ≡ no_tally }
{
    let receipt: Receipt = Receipt {
        index,
        event: Event::Close(1),
        reply: Reply::Closed(0),
    };
    let closed = Trail::new().and(&receipt);
    drop(receipt);
    unkept_trail(&closed)
}

/// Whether a look finds a run of one plain link right, whose reader came to its end and whose writer drained the connection, where each made
/// one step alone, at these indices.
fn is_in_order(read: u32, wrote: u32) -> bool {
    let link: LinkAccount<(), ()> = LinkAccount {
        role: Role::Plain,
        conn: Some(1),
        reader_end: ReaderEnd::Bytes,
        reader_receipts: closed_at(read),
        reader: (),
        writer_end: WriterEnd::Drained,
        writer_receipts: closed_at(wrote),
        writer: (),
        read: Tally::new(),
        written: Tally::new(),
        last_read: u64::from(read) + 1,
        last_written: u64::from(wrote) + 1,
        written_on: Some(1),
        idle: None,
    };
    let mut looks = Looks::none::<(), (), Global>();
    looks.count(&link);
    looks.are_right()
}

#[test]
fn a_drain_comes_last(rt: HostRuntime) -> Result<(), Fail> {
    assert!(rt; is_in_order(1, 2) && !is_in_order(2, 1));
    Ok(())
}
