//! The account of a run whose steps nobody keeps.

ghost use Rattle.std.specs.Prelude.{◌≡◌, ◌+◌, ◌<◌, ◌^◌, length};
ghost use Rattle.gn_actors.specs.Tallies.{last_place, tally_of};

use crate::unkept::Unkept;
use gn_actors::Tally;
use gn_bodies::{ReaderEnd, WriterEnd};
use gn_rules::{ConnId, Receipt, Stats, Step};
use gn_shake::Role;
use std::alloc::{Allocator, Global};

/// What the two bodies of a link did, and the halves of the link.
#[derive(Drop)]
pub struct LinkAccount<Rd, W, A: Allocator = Global> {
    /// How the link begins.
    pub role: Role,
    /// The link's connection, where its reader got one.
    pub conn: Option<ConnId>,
    /// How the reader ended.
    pub reader_end: ReaderEnd,
    /// The receipts of the reader's calls, in order.
    pub reader_receipts: Unkept<Receipt<A>>,
    /// The half that was read.
    pub reader: Rd,
    /// How the writer ended.
    pub writer_end: WriterEnd,
    /// The receipts of the writer's calls, in order.
    pub writer_receipts: Unkept<Receipt<A>>,
    /// The half that was written.
    pub writer: W,
    /// What the reader's receipts count.
    pub read: Tally,
    /// What the writer's receipts count.
    pub written: Tally,
    /// One more than the number of the reader's last step; 0, where it made none.
    pub last_read: u64,
    /// The same of its writer.
    pub last_written: u64,
    /// The connection that the writer wrote on: none where it failed or ended before it knew one.
    pub written_on: Option<ConnId>,
    /// After how many steps nothing was in flight, where the writer closed the connection.
    pub idle: Option<u64>,
    /// The tallies are those of the receipts.
    pub ghost counted: { (read ≡ tally_of reader_receipts.items) × (written ≡ tally_of writer_receipts.items) },
    /// And so are the numbers of the last steps.
    pub ghost placed: { (last_read ≡ last_place reader_receipts.items)
        × (last_written ≡ last_place writer_receipts.items) },
}

/// What the receipts of a link's two bodies count.
#[derive(Clone, Copy, Debug, PartialEq, Eq)]
pub struct LinkTally {
    /// Those of its reader.
    pub read: Tally,
    /// Those of its writer.
    pub written: Tally,
}

/// How a link ended of a run whose steps nobody keeps.
#[derive(Drop)]
pub enum LinkEnd<Rd, W, A: Allocator = Global> {
    /// Both bodies have an end.
    Whole(LinkAccount<Rd, W, A>),
    /// The run stopped, and this is what they counted.
    Cut(LinkTally),
}

/// What a run did whose steps nobody keeps: a `Report` whose lists only proofs read. The actors have the numbers that they have there.
#[derive(Drop)]
pub struct Account<Rd, W, A: Allocator = Global> {
    /// All steps, in order.
    pub history: Unkept<Step<A>>,
    /// What each link's bodies did, in the order of the links.
    pub links: Vec<LinkAccount<Rd, W, A>, A>,
    /// The receipts of each worker's calls.
    pub workers: Vec<Unkept<Receipt<A>>, A>,
    /// The receipts of the house's calls.
    pub house: Unkept<Receipt<A>>,
    /// The counters at the end.
    pub stats: Stats,
    /// Each actor has a number.
    pub ghost numbered: { length links.items + length links.items + length workers.items + 1 < 2 ^ 32 },
}
