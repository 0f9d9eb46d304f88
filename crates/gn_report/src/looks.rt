//! Looks at a link as its bodies have ended, and what is counted of the links of a run, so that its steps needn't be looked at.

ghost use Rattle.std.specs.Prelude.{◌≡◌, ◌≤◌, ◌<◌, [], List, None, Option, Some, ℕ, false, true, slice_get, slice_set};
ghost use Rattle.gn_report.specs.declared.account.LinkEnd.{LinkEnd};
ghost use Rattle.gn_report.specs.declared.account.LinkEnd.TheVariants.{Whole};
ghost use Rattle.gn_report.specs.Looks.{AreCounted, AreRight, IsBefore, IsFrom};
ghost use Rattle.gn_report.specs.Seen as seen;
ghost use Rattle.gn_report.specs.BodyEnds as ends;
ghost use Rattle.gn_bodies.specs.declared.ends.ReaderEnd.TheVariants.{NotLive};
ghost use Rattle.gn_bodies.specs.declared.ends.WriterEnd.TheVariants.{Drained};

use crate::account::LinkAccount;
use crate::ends::may_close_first;
use gn_bodies::{ReaderEnd, WriterEnd};
use gn_rules::ConnId;
use std::alloc::Allocator;

/// Whether two connections are the same, or both are none.
fn is_same(a: Option<ConnId>, b: Option<ConnId>) -> bool
    ensures { result ≡ true → a ≡ b }
{
    match (a, b) {
        (Some(c), Some(d)) => c == d,
        (None, None) => true,
        _ => false,
    }
}

/// Whether the connection that a writer with this end wrote on is the link's.
fn is_same_link(end: WriterEnd, written: Option<ConnId>, conn: Option<ConnId>) -> bool
    ensures { result ≡ true → seen.IsSameLink end written conn }
{
    match end {
        WriterEnd::NeverOpened => conn.is_none(),
        WriterEnd::WriteFailed => written.is_none() || is_same(written, conn),
        WriterEnd::Drained | WriterEnd::Closed => is_same(written, conn),
    }
}

/// Whether the writer of a link may close first, where the reader found its connection closed.
fn is_first<Rd, W, A: Allocator>(link: &LinkAccount<Rd, W, A>) -> bool
    ensures { result ≡ true → link.now.reader_end ≡ NotLive
        → ends.may_close_first false link.now.role link.now.writer_end ≡ true }
{
    match link.reader_end {
        ReaderEnd::NotLive => may_close_first(false, link.role, link.writer_end),
        _ => true,
    }
}

/// Whether the ends of a link's two bodies go with each other: its writer wrote on its connection, and may close first where its reader
/// found it closed.
pub fn is_link_right<Rd, W, A: Allocator>(link: &LinkAccount<Rd, W, A>) -> bool
    ensures same { result ≡ true → seen.IsSameLink link.now.writer_end link.now.written_on link.now.conn }
    ensures first { result ≡ true → link.now.reader_end ≡ NotLive
        → ends.may_close_first false link.now.role link.now.writer_end ≡ true }
{
    is_same_link(link.writer_end, link.written_on, link.conn) && is_first(link)
}

/// What is counted of the links of a run as each ends: in which order the last steps came of readers and of writers that drained
/// their connection.
#[derive(Clone, Copy)]
pub struct Looks {
    /// The last place of the readers of links that don't call.
    read_until: u64,
    /// That of the readers of links that call.
    called_until: u64,
    /// The least of the last places of writers that drained their connection.
    drained_from: Option<u64>,
    /// All links call.
    all_call: bool,
    /// A reader found its connection closed, and its writer drained it.
    needs_caller: bool,
}

/// The greater of two places, where the second counts.
fn later(counts: bool, so_far: u64, place: u64) -> u64
    ensures { (so_far ≤ result) × (counts ≡ true → place ≤ result) }
{
    if counts && so_far < place {
        place
    } else {
        so_far
    }
}

/// The lesser of two places, where the second counts.
fn earlier(counts: bool, so_far: Option<u64>, place: u64) -> Option<u64>
    ensures old { (last : ℕ) → IsFrom so_far last → IsFrom result last }
    ensures new { counts ≡ true → IsFrom result place }
{
    match so_far {
        None if counts => Some(place),
        Some(least) if counts && place < least => Some(place),
        _ => so_far,
    }
}

/// Whether a place is before this one, where there is one.
fn is_before(place: u64, from: Option<u64>) -> bool
    ensures { result ≡ true → IsBefore place from }
{
    match from {
        Some(from) => place < from,
        None => true,
    }
}

/// Whether a writer drained its connection.
fn has_drained(end: WriterEnd) -> bool
    ensures { end ≡ Drained → result ≡ true }
{
    matches!(end, WriterEnd::Drained)
}

/// Whether a reader found its connection closed.
fn has_found_closed(end: ReaderEnd) -> bool
    ensures { end ≡ NotLive → result ≡ true }
{
    matches!(end, ReaderEnd::NotLive)
}

impl Looks {
    /// Of no link.
    pub fn none<Rd, W, A: Allocator>() -> Looks
        ensures { AreCounted {Rd = Rd} {W = W} {A = A} result [] }
    {
        Looks {
            read_until: 0,
            called_until: 0,
            drained_from: None,
            all_call: true,
            needs_caller: false,
        }
    }

    /// Both bodies of a link have ended.
    pub fn count<Rd, W, A: Allocator>(&mut self, link: &LinkAccount<Rd, W, A>)
        ensures { (links : List (Option (LinkEnd Rd W A))) (k : ℕ) → slice_get links k ≡ Some None
            → AreCounted self.old links → AreCounted self.new (slice_set links k (Some (Whole link.now))) }
    {
        let calls = link.role.is_calling();
        let drained = has_drained(link.writer_end);
        let found = has_found_closed(link.reader_end);
        let read_until = later(!calls, self.read_until, link.last_read);
        let called_until = later(calls, self.called_until, link.last_read);
        let drained_from = earlier(drained, self.drained_from, link.last_written);
        *self = Looks {
            read_until,
            called_until,
            drained_from,
            all_call: self.all_call & calls,
            needs_caller: self.needs_caller | (found & drained),
        };
    }

    /// Whether each writer that drained its connection made its last step after those of all readers that are awaited, and closed first
    /// only where it may.
    pub fn are_right(&self) -> bool
        ensures { result ≡ true → AreRight self.now }
    {
        let read = is_before(self.read_until, self.drained_from);
        let called = is_before(self.called_until, self.drained_from);
        read & (!self.all_call | (called & !self.needs_caller))
    }
}
