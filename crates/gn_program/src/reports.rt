//! What became of the links of a run, as it is written.

ghost use Rattle.std.specs.Prelude.{◌≡◌, None, Some};
ghost use Rattle.std.specs.List.{slice_get};
ghost use Rattle.gn_program.specs.Reports.{counts_of, tallied};
ghost use Rattle.gn_program.specs.Reports as texts;

use crate::text::write_text;
use gn_actors::Tally;
use gn_bodies::{ReaderEnd, WriterEnd};
use gn_io::{Sink, write_all};
use gn_report::{Account, LinkAccount, LinkTally};
use gn_rules::{ConnId, Stats};
use gn_tcp::{TcpReader, TcpWriter};
use gn_text::push_stats;
use std::alloc::Global;
use std::fmt;
use std::fmt::{Display, Formatter, Write};
use std::net::SocketAddr;

/// What the line of a link counts.
#[derive(Clone, Copy)]
pub(crate) struct EventCounts {
    /// Descriptors that the link brought.
    pub(crate) offered: u64,
    /// Those among them that were refused at a threshold, that of all or the link's own.
    pub(crate) busy: u64,
    /// Packets that its writer took.
    pub(crate) taken: u64,
}

impl Display for EventCounts {
    ghost use Rattle.std.specs.Prelude.{Some};
    ghost use Rattle.gn_program.specs.Reports.{counts_text};

    ghost output = { λ counts. Some (counts_text counts) };

    fn fmt<W: Write>(&self, f: &mut Formatter<W>) -> fmt::Result {
        write!(
            f,
            "offered {} busy {} taken {}",
            self.offered, self.busy, self.taken
        )
    }
}

/// What these tallies of a link's reader and writer count.
fn tallied(read: &Tally, written: &Tally) -> EventCounts
    ensures { result ≡ tallied read.now written.now }
{
    EventCounts {
        offered: read.offered,
        busy: read.busy,
        taken: written.taken,
    }
}

/// Which link it is: its number, its peer, where that is known, and its connection, where it got one.
#[derive(Clone, Copy)]
pub(crate) struct Named {
    pub(crate) link: usize,
    pub(crate) peer: Option<SocketAddr>,
    pub(crate) conn: Option<ConnId>,
}

/// A connection's number, or that there is none.
#[derive(Clone, Copy)]
struct Numbered(Option<ConnId>);

impl Display for Numbered {
    ghost use Rattle.std.specs.Prelude.{Some};
    ghost use Rattle.gn_program.specs.Reports.{conn_text};

    ghost output = { λ conn. Some (conn_text conn.0) };

    fn fmt<W: Write>(&self, f: &mut Formatter<W>) -> fmt::Result {
        match self.0 {
            Some(conn) => write!(f, "{conn}"),
            None => f.write_str("-"),
        }
    }
}

/// A peer's address, or that it isn't known.
#[derive(Clone, Copy)]
struct Addressed(Option<SocketAddr>);

impl Display for Addressed {
    ghost use Rattle.std.specs.Prelude.{Some};
    ghost use Rattle.gn_program.specs.Reports.{peer_text};

    ghost output = { λ peer. Some (peer_text peer.0) };

    fn fmt<W: Write>(&self, f: &mut Formatter<W>) -> fmt::Result {
        match self.0 {
            Some(peer) => write!(f, "{peer}"),
            None => f.write_str("-"),
        }
    }
}

impl Display for Named {
    ghost use Rattle.std.specs.Prelude.{Some};
    ghost use Rattle.gn_program.specs.Reports.{named_text};

    ghost output = { λ named. Some (named_text named) };

    fn fmt<W: Write>(&self, f: &mut Formatter<W>) -> fmt::Result {
        let peer = Addressed(self.peer);
        let conn = Numbered(self.conn);
        write!(f, "link {} {peer} connection {conn}", self.link)
    }
}

/// How a link's two threads ended, where that is known.
#[derive(Clone, Copy)]
pub(crate) struct Ends {
    pub(crate) reader: Option<ReaderEnd>,
    pub(crate) writer: Option<WriterEnd>,
}

impl Display for Ends {
    ghost use Rattle.std.specs.Prelude.{Some};
    ghost use Rattle.gn_program.specs.Reports.{ends_text};

    ghost output = { λ ends. Some (ends_text ends) };

    fn fmt<W: Write>(&self, f: &mut Formatter<W>) -> fmt::Result {
        let reader = reader_word(self.reader);
        let writer = writer_word(self.writer);
        write!(f, "reader {reader} writer {writer}")
    }
}

/// The word for how a reader ended; `-` where it never began.
fn reader_word(end: Option<ReaderEnd>) -> &'static str
    ensures { result.now ≡ texts.reader_word end }
{
    match end {
        Some(ReaderEnd::Bytes) => "bytes",
        Some(ReaderEnd::Fault(_)) => "fault",
        Some(ReaderEnd::ReadFailed) => "failed",
        Some(ReaderEnd::Turns) => "turns",
        Some(ReaderEnd::GreetingRefused) => "refused",
        Some(ReaderEnd::GreetingCut) => "cut",
        Some(ReaderEnd::TooMany) => "toomany",
        Some(ReaderEnd::NotLive) => "notlive",
        None => "-",
    }
}

/// The word for how a writer ended; `-` where it never began.
fn writer_word(end: Option<WriterEnd>) -> &'static str
    ensures { result.now ≡ texts.writer_word end }
{
    match end {
        Some(WriterEnd::Drained) => "drained",
        Some(WriterEnd::WriteFailed) => "failed",
        Some(WriterEnd::Closed) => "closed",
        Some(WriterEnd::NeverOpened) => "unopened",
        None => "-",
    }
}

/// The line of a link.
#[derive(Clone, Copy)]
pub(crate) struct LinkLine {
    pub(crate) named: Named,
    pub(crate) ends: Ends,
    pub(crate) counts: EventCounts,
}

impl Display for LinkLine {
    ghost use Rattle.std.specs.Prelude.{Some};
    ghost use Rattle.gn_program.specs.Reports.{link_text};

    ghost output = { λ line. Some (link_text line) };

    fn fmt<W: Write>(&self, f: &mut Formatter<W>) -> fmt::Result {
        writeln!(f, "{} {} {}", self.named, self.ends, self.counts)
    }
}

/// The line of this link: what its reader brought, and what its writer took.
pub(crate) fn line_of(link: usize, done: &LinkAccount<TcpReader<'_>, TcpWriter>) -> LinkLine
    ensures link { result.named.link ≡ link }
    ensures conn { result.named.conn ≡ done.now.conn }
    ensures reader { result.ends.reader ≡ Some done.now.reader_end }
    ensures writer { result.ends.writer ≡ Some done.now.writer_end }
    ensures counts { result.counts ≡ counts_of done.now }
{
    LinkLine {
        named: Named {
            link,
            peer: Some(done.reader.peer()),
            conn: done.conn,
        },
        ends: Ends {
            reader: Some(done.reader_end),
            writer: Some(done.writer_end),
        },
        counts: tallied(&done.read, &done.written),
    }
}

/// Writes the line of the counters, where there is memory for it.
pub(crate) fn write_stats<F: Sink>(alloc: Global, faults: &mut F, stats: &Stats) {
    let mut line = Vec::new(alloc);
    if push_stats(&mut line, stats).is_ok() {
        let _ = write_all(faults, &line);
    }
}

/// Writes a line for each link whose peer came, and the counters. That it can't be written, or there is no memory for the counters'
/// line, changes nothing.
pub(crate) fn write_account<F: Sink>(
    alloc: Global,
    faults: &mut F,
    account: &Account<TcpReader<'_>, TcpWriter>,
) {
    for (link, done) in account.links.iter().enumerate() {
        if !done.reader.is_missing() {
            let _ = write_text(faults, line_of(link, done));
        }
    }
    write_stats(alloc, faults, &account.stats);
}

/// The line of this link of a run that stopped: of its peer the address that was called is known, if one was, and of its ends
/// nothing.
fn stopped_line(link: usize, peers: &[SocketAddr], tally: &LinkTally) -> LinkLine
    ensures link { result.named.link ≡ link }
    ensures peer { result.named.peer ≡ slice_get peers.now link }
    ensures conn { result.named.conn ≡ tally.now.read.connection }
    ensures ends { (result.ends.reader ≡ None) × (result.ends.writer ≡ None) }
    ensures counts { result.counts ≡ tallied tally.now.read tally.now.written }
{
    LinkLine {
        named: Named {
            link,
            peer: peers.get(link).copied(),
            conn: tally.read.connection,
        },
        ends: Ends {
            reader: None,
            writer: None,
        },
        counts: tallied(&tally.read, &tally.written),
    }
}

/// Writes of a run that stopped a line for each link that got a connection, by what its actors did. These peers were called. That it
/// can't be written changes nothing.
pub(crate) fn write_stopped<F: Sink>(faults: &mut F, peers: &[SocketAddr], links: &[LinkTally]) {
    for (link, tally) in links.iter().enumerate() {
        if tally.read.connection.is_some() {
            let _ = write_text(faults, stopped_line(link, peers, tally));
        }
    }
}
