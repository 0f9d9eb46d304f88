//! Readers that read in step, and workers that route in step.

use gn_links::{Gate, Link, LinkFault, LinkReader, Watch};
use gn_shake::Role;
use std::sync::Wait;
use std::sync::atomic::{AtomicBool, AtomicU64, Ordering};
use std::thread;

/// How often one looks for the other at most, each time.
const MOST_LOOKS: u32 = 100_000_000;

/// Where two readers meet, or two workers: how many reads or routes each of them has begun, and whether one gave the other up.
#[derive(Drop)]
pub struct Meeting {
    first: AtomicU64,
    second: AtomicU64,
    pub is_missed: AtomicBool,
}

impl Meeting {
    /// Nobody has begun.
    pub fn new() -> Self {
        Meeting {
            first: AtomicU64::new(0),
            second: AtomicU64::new(0),
            is_missed: AtomicBool::new(false),
        }
    }

    /// How often each of them has begun.
    pub fn begun(&self) -> (u64, u64) {
        (
            self.first.load(Ordering::SeqCst),
            self.second.load(Ordering::SeqCst),
        )
    }

    /// Begins, and waits until the other has begun as often. Once one was given up, nobody waits.
    fn meet(&self, is_first: bool) {
        let (own, other) = if is_first {
            (&self.first, &self.second)
        } else {
            (&self.second, &self.first)
        };
        let begun = own.fetch_add(1, Ordering::SeqCst);
        for _ in 0..MOST_LOOKS {
            if other.load(Ordering::SeqCst) > begun || self.is_missed.load(Ordering::SeqCst) {
                return;
            }
            thread::yield_now();
        }
        self.is_missed.store(true, Ordering::SeqCst);
    }
}

impl Gate for Meeting {
    /// Two workers, 0 and 1, begin each route together.
    fn enter<R: Wait>(&self, _rt: &R, worker: u32, _ticket: u32) {
        self.meet(worker == 0);
    }
}

impl Watch for Meeting {}

/// A reader that begins each read together with another.
#[derive(Drop)]
pub struct PacedReader<'a, Rd: LinkReader> {
    reader: Rd,
    meeting: &'a Meeting,
    is_first: bool,
}

impl<'a, Rd: LinkReader> LinkReader for PacedReader<'a, Rd> {
    type Origin = Rd::Origin;

    ghost made_of = { λ r. Rd.made_of r.reader };

    ghost gives = { Rd.gives };

    ghost state = { λ r. Rd.state r.reader };

    ghost is_finished = { λ r. Rd.is_finished r.reader };

    fn read<R: Wait>(&mut self, rt: &R, buffer: &mut [u8]) -> Result<usize, LinkFault> {
        self.meeting.meet(self.is_first);
        self.reader.read(rt, buffer)
    }

    fn finish<R: Wait>(&mut self, rt: &R) {
        self.reader.finish(rt);
    }
}

/// A link whose reader begins each read together with another, as the first or the second of a meeting. Without a meeting it
/// can't be split.
#[derive(Drop)]
pub struct PacedLink<'a, K: Link> {
    pub link: K,
    pub meeting: Option<&'a Meeting>,
    pub is_first: bool,
}

impl<'a, K: Link> Link for PacedLink<'a, K> {
    ghost use Rattle.std.specs.Prelude.{◌||◌, is_none};

    type Origin = K::Origin;

    type Reader = PacedReader<'a, K::Reader>;

    type Writer = K::Writer;

    ghost role_of = { λ l. K.role_of l.link };

    ghost origin_of = { λ l. K.origin_of l.link };

    ghost may_not_split = { λ l. is_none l.meeting || K.may_not_split l.link };

    fn role(&self) -> Role {
        self.link.role()
    }

    fn split(self) -> Result<(PacedReader<'a, K::Reader>, K::Writer), LinkFault> {
        let PacedLink {
            link,
            meeting,
            is_first,
        } = self;
        let Some(meeting) = meeting else {
            return Err(LinkFault);
        };
        let (reader, writer) = link.split()?;
        let reader = PacedReader {
            reader,
            meeting,
            is_first,
        };
        Ok((reader, writer))
    }
}

/// Whether the two of a meeting have begun so often, and neither gave the other up.
pub fn have_met(meeting: &Meeting, begun: u64) -> bool {
    meeting.begun() == (begun, begun) && !meeting.is_missed.load(Ordering::SeqCst)
}
