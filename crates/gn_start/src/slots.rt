//! What stands in a slot.

ghost use Rattle.std.specs.Prelude.{◌≡◌, ◌<◌, ◌≤◌, ◌^◌, [], None, Some, length, replicate, slice_index_or, slice_set, IfNone, IfOk, IfSome};

use crate::limits::Limited;
use crate::promises::{ReaderHandle, WriterHandle};
use gn_actors::Named;
use gn_links::{LinkReader, LinkWriter};
use gn_stage::Site;
use std::alloc::{AllocError, Allocator, Global};
use std::marker::Model;
use std::mem;
use std::sync::ledger::Ledger;

/// A link whose two threads run. Contracts see how it stands.
#[derive(Drop)]
pub(crate) struct LiveLink<
    Rd: LinkReader,
    W: LinkWriter,
    B: Site + Ledger + Limited + Named,
    A: Allocator = Global,
> {
    pub link: u32,
    pub reading: ReaderHandle<Rd, B, A>,
    pub writing: WriterHandle<W, B, A>,
}

impl<Rd: LinkReader, W: LinkWriter, B: Site + Ledger + Limited + Named, A: Allocator> Model
    for LiveLink<Rd, W, B, A> {
    ghost use Rattle.gn_start.specs.Seats.{Seat};

    ghost Value = { Seat Rd W };

    ghost view = { λ l. record {
      link = l.link;
      reader = l.reading.promise.start.value.actor.number;
      writer = l.writing.promise.start.value.actor.number;
      came = record {
        role = l.reading.promise.start.value.role;
        reader = l.reading.promise.start.value.reader;
        writer = l.writing.promise.start.value.writer;
      };
      other = l.writing.promise.start.value.role;
    } };
}

/// The slots of a run, as many as links may be there at once. Contracts see how the link of each stands.
pub(crate) struct Slots<
    Rd: LinkReader,
    W: LinkWriter,
    B: Site + Ledger + Limited + Named,
    A: Allocator = Global,
> {
    all: Vec<Option<LiveLink<Rd, W, B, A>>, A>,
}

impl<Rd: LinkReader, W: LinkWriter, B: Site + Ledger + Limited + Named, A: Allocator> Drop
    for Slots<Rd, W, B, A> {
    fn drop(self) {
        let Slots { all: _ } = self;
    }
}

impl<Rd: LinkReader, W: LinkWriter, B: Site + Ledger + Limited + Named, A: Allocator> Model
    for Slots<Rd, W, B, A> {
    ghost use Rattle.std.specs.Prelude.{◌<◌, ◌^◌, List, Option, length};
    ghost use Rattle.gn_start.specs.Seats.{Seat};

    ghost Value = { List (Option (Seat Rd W)) };

    ghost view = { λ s. s.all.items };

    ghost invariant = { λ s. length s.all.items < 2 ^ 32 };
}

impl<Rd: LinkReader, W: LinkWriter, B: Site + Ledger + Limited + Named, A: Allocator> Slots<
    Rd,
    W,
    B,
    A,
> {
    /// So many free slots. An `Err` is out of memory.
    pub(crate) fn new(alloc: A, slots: u32) -> Result<Self, AllocError>
        ensures { IfOk result (λ s. s ≡ replicate slots None) }
    {
        let mut all = Vec::with_capacity(alloc, slots as usize)?;
        for _ in 0..slots {
            all.push_reserved(None);
        }
        Ok(Slots { all })
    }

    /// No slots.
    pub(crate) fn none(alloc: A) -> Self
        ensures { result ≡ [] }
    {
        Slots {
            all: Vec::new(alloc),
        }
    }

    /// How many slots there are.
    pub(crate) fn many(&self) -> u32
        ensures { result ≡ length self.now }
    {
        self.all.len() as u32
    }

    /// A slot that is free, if there is one.
    pub(crate) fn free(&self) -> Option<u32>
        ensures { IfSome result (λ i. (i < length self.now) × (slice_index_or self.now i None ≡ None)) }
    {
        for slot in 0..self.many() {
            if self.all[slot as usize].is_none() {
                return Some(slot);
            }
        }
        None
    }

    /// Takes what stands in a slot, which is free then.
    pub(crate) fn take(&mut self, slot: u32) -> Option<LiveLink<Rd, W, B, A>>
        requires { slot < length self.old }
        ensures slots { self.new ≡ slice_set self.old slot None }
        ensures taken { IfSome result (λ live. slice_index_or self.old slot None ≡ Some live) }
        ensures free { IfNone result (slice_index_or self.old slot None ≡ None) }
    {
        mem::replace(&mut self.all[slot as usize], None)
    }

    /// Puts a link into a slot.
    pub(crate) fn put(&mut self, slot: u32, live: LiveLink<Rd, W, B, A>)
        requires { slot < length self.old }
        ensures { self.new ≡ slice_set self.old slot (Some live) }
    {
        self.all[slot as usize] = Some(live);
    }
}
