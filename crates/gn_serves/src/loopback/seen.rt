//! What tests look at of a run over the loopback.

use super::TcpReport;
use gn_bodies::{ReaderEnd, WriterEnd};
use gn_report::LinkReport;
use gn_rules::{Counter, Event, Stats, Step};
use gn_tcp::{TcpReader, TcpWriter};
use std::net::SocketAddr;

/// How the bodies of a link end.
pub(crate) type Ends = (ReaderEnd, WriterEnd);

/// How those end of a link whose peer sent all it had to, and was sent all that was for it.
pub(crate) const DRAINED: Ends = (ReaderEnd::Bytes, WriterEnd::Drained);

/// What stands in the history of a run.
#[derive(Clone, Copy)]
pub(crate) struct Events {
    /// The number of Connect events.
    pub(crate) connects: usize,
    /// The number of Admit events.
    pub(crate) admits: usize,
    /// The number of Close events.
    pub(crate) closes: usize,
    /// Who made each of the first four Close events.
    pub(crate) closers: [Option<u32>; 4],
}

/// What is seen of a run.
#[derive(Clone, Copy)]
pub(crate) struct Seen {
    /// How many steps it made.
    pub(crate) steps: usize,
    pub(crate) events: Events,
    /// How many are counted as connected, admitted, routed, a duplicate, taken, closed.
    pub(crate) counts: [u32; 6],
    /// How each of the first four links ended.
    pub(crate) ends: [Option<Ends>; 4],
    /// Whom the first link leads to.
    pub(crate) peer: Option<SocketAddr>,
}

impl Seen {
    /// What is seen of it by its report.
    pub(super) fn of(report: &TcpReport<'_>) -> Self {
        let links = report.links.as_slice();
        Seen {
            steps: report.history.len(),
            events: events_of(report.history.as_slice()),
            counts: counts_of(&report.stats),
            ends: ends_of(links),
            peer: peer_of(links),
        }
    }
}

/// Counts a step, or keeps who made it.
fn count(events: &mut Events, step: &Step) {
    match &step.event {
        Event::Connect => events.connects = events.connects.wrapping_add(1),
        Event::Admit(..) => events.admits = events.admits.wrapping_add(1),
        Event::Close(_) => count_close(events, step.actor),
        _ => {}
    }
}

/// Counts a Close event of this actor.
fn count_close(events: &mut Events, actor: u32) {
    if let Some(closer) = events.closers.get_mut(events.closes) {
        *closer = Some(actor);
    }
    events.closes = events.closes.wrapping_add(1);
}

/// What stands in this history.
fn events_of(history: &[Step]) -> Events {
    let mut events = Events {
        connects: 0,
        admits: 0,
        closes: 0,
        closers: [None; 4],
    };
    for step in history {
        count(&mut events, step);
    }
    events
}

/// What statistics count.
fn counts_of(stats: &Stats) -> [u32; 6] {
    [
        stats.get(Counter::Connected),
        stats.get(Counter::Admitted),
        stats.get(Counter::Routed),
        stats.get(Counter::Duplicate),
        stats.get(Counter::Taken),
        stats.get(Counter::Closed),
    ]
}

/// How each of these links ended, at most four.
fn ends_of(links: &[LinkReport<TcpReader<'_>, TcpWriter>]) -> [Option<Ends>; 4] {
    let mut ends = [None; 4];
    for (end, link) in ends.iter_mut().zip(links) {
        *end = Some((link.reader_end, link.writer_end));
    }
    ends
}

/// Whom the first of these links leads to.
fn peer_of(links: &[LinkReport<TcpReader<'_>, TcpWriter>]) -> Option<SocketAddr> {
    match links.first() {
        Some(link) => Some(link.reader.peer()),
        None => None,
    }
}
