//! The report of a run.

ghost use Rattle.std.specs.Prelude.{◌+◌, ◌<◌, ◌^◌, length};

use gn_bodies::{ReaderEnd, WriterEnd};
use gn_rules::{ConnId, Receipt, Stats, Step};
use std::alloc::{Allocator, Global};

/// What the two bodies of a link did, and the halves of the link.
#[derive(Drop)]
pub struct LinkReport<Rd, W, A: Allocator = Global> {
    /// The link's connection, where its reader got one.
    pub conn: Option<ConnId>,
    /// How the reader ended.
    pub reader_end: ReaderEnd,
    /// The receipts of the reader's calls, in order.
    pub reader_receipts: Vec<Receipt<A>, A>,
    /// The half that was read.
    pub reader: Rd,
    /// How the writer ended.
    pub writer_end: WriterEnd,
    /// The receipts of the writer's calls, in order.
    pub writer_receipts: Vec<Receipt<A>, A>,
    /// The half that was written.
    pub writer: W,
}

/// What a run did. Of L links and V workers the reader of link i is actor i, its writer L + i, worker j is 2L + j, and
/// the house, which started the run, is 2L + V.
#[derive(Drop)]
pub struct Report<Rd, W, A: Allocator = Global> {
    /// All steps, in order.
    pub history: Vec<Step<A>, A>,
    /// What each link's bodies did, in the order of the links.
    pub links: Vec<LinkReport<Rd, W, A>, A>,
    /// The receipts of each worker's calls.
    pub workers: Vec<Vec<Receipt<A>, A>, A>,
    /// The receipts of the house's calls.
    pub house: Vec<Receipt<A>, A>,
    /// The counters at the end.
    pub stats: Stats,
    /// Each actor has a number.
    pub ghost numbered: { length links.items + length links.items + length workers.items + 1 < 2 ^ 32 },
}
