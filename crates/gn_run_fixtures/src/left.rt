//! What a run left, of its history and of its first link.

ghost use Rattle.std.specs.Prelude.{◌≡◌, Ok, IfOk};

use gn_bodies::{ReaderEnd, WriterEnd};
use gn_report::{LinkReport, Report};
use gn_rules::{Event, Step};
use gn_threads::RunFault;
use std::alloc::{AllocError, Global};
use std::test::Fail;

/// The actor of the reader of a run's only link.
pub const READER: u32 = 0;

/// The actor of its writer.
pub const WRITER: u32 = 1;

/// What a run left. Its history is legal, by what a run promises.
#[derive(Drop)]
pub struct Left {
    /// How the bodies of the first link ended.
    pub ends: (ReaderEnd, WriterEnd),
    /// The number of connections.
    pub connects: usize,
    /// The number of Admit events.
    pub admits: usize,
    /// Who made each Close event, in order.
    pub closers: Vec<u32>,
}

impl Left {
    /// Whether no connection is live at the end: a legal history closes each once at most.
    pub fn is_all_closed(&self) -> bool {
        self.closers.len() == self.connects
    }
}

/// Counts a step, or keeps who made it.
fn count(left: &mut Left, step: &Step) -> Result<(), AllocError> {
    match &step.event {
        Event::Connect => left.connects = left.connects.wrapping_add(1),
        Event::Admit(..) => left.admits = left.admits.wrapping_add(1),
        Event::Close(_) => left.closers.push(step.actor)?,
        _ => {}
    }
    Ok(())
}

/// How the bodies of a link ended, and its writer.
fn ends_of<Rd: Drop, W: Drop>(link: LinkReport<Rd, W>) -> ((ReaderEnd, WriterEnd), W) {
    let LinkReport {
        reader_end,
        reader_receipts,
        reader,
        writer_end,
        writer_receipts,
        writer,
        ..
    } = link;
    drop(reader_receipts);
    drop(reader);
    drop(writer_receipts);
    ((reader_end, writer_end), writer)
}

/// What a run left whose first link ended so and whose history this is.
fn left_by(
    alloc: Global,
    ends: (ReaderEnd, WriterEnd),
    history: &[Step],
) -> Result<Left, AllocError> {
    let mut left = Left {
        ends,
        connects: 0,
        admits: 0,
        closers: Vec::new(alloc),
    };
    for step in history {
        count(&mut left, step)?;
    }
    Ok(left)
}

/// What a run left, and the writer of the first link.
pub fn left_of<Rd: Drop, W: Drop>(alloc: Global, report: Report<Rd, W>) -> Result<(Left, W), Fail> {
    let Report {
        history,
        mut links,
        workers,
        house,
        ..
    } = report;
    drop(workers);
    drop(house);
    links.truncate(1);
    let link = links.pop();
    drop(links);
    let Some(link) = link else {
        drop(history);
        return Err("a link".into());
    };
    let (ends, writer) = ends_of(link);
    let left = left_by(alloc, ends, history.as_slice());
    drop(history);
    match left {
        Ok(left) => Ok((left, writer)),
        Err(_) => {
            drop(writer);
            Err("room for the closers".into())
        }
    }
}

/// The report of a run.
pub fn a_report<T: Drop>(ran: Result<T, RunFault>) -> Result<T, Fail>
    ensures { IfOk result (λ report. ran ≡ Ok report) }
{
    match ran {
        Ok(report) => Ok(report),
        Err(_) => Err("a report".into()),
    }
}
