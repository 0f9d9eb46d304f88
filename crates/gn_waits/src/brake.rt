//! What has the readers of a run read little at a time, and what they have in hand.

use std::array;
use std::sync::atomic::{AtomicBool, AtomicI64, AtomicU32, Ordering};

/// As many slots as a run has at most.
const SLOTS: usize = 256;

/// The bytes of the least descriptor.
const LEAST: usize = 23;

/// What has the readers of a run read little at a time once it is set, and how many descriptors they have in hand at most: those that
/// their last reads may have completed and that weren't offered yet, or those that their next reads may complete.
#[derive(Debug)]
pub struct Brake {
    is_set: AtomicBool,
    /// The sum of those of all slots; below 0 for a moment at most.
    in_hand: AtomicI64,
    /// Those of the link in each slot. The link's reader alone changes them.
    held: [AtomicU32; SLOTS],
}

impl Drop for Brake {
    fn drop(self) {
        let Brake {
            is_set: _,
            in_hand: _,
            held: _,
        } = self;
    }
}

impl Brake {
    /// One that isn't set, of readers that have nothing in hand.
    pub fn new() -> Self {
        Brake {
            is_set: AtomicBool::new(false),
            in_hand: AtomicI64::new(0),
            held: array::from_fn(|_| AtomicU32::new(0)),
        }
    }

    /// The readers read little at a time from now on.
    pub fn set(&self) {
        self.is_set.store(true, Ordering::SeqCst);
    }

    /// How many descriptors the readers have in hand at most.
    pub fn in_hand(&self) -> u64 {
        u64::try_from(self.in_hand.load(Ordering::SeqCst)).unwrap_or(0)
    }

    /// The reader of the link in this slot has offered one of them.
    pub fn offered(&self, slot: u32) {
        if let Some(held) = self.held.get(slot as usize)
            && held.load(Ordering::SeqCst) > 0
        {
            held.fetch_sub(1, Ordering::SeqCst);
            self.in_hand.fetch_sub(1, Ordering::SeqCst);
        }
    }

    /// Whether the readers read little at a time.
    pub(crate) fn is_set(&self) -> bool {
        self.is_set.load(Ordering::SeqCst)
    }

    /// The reader of the link in this slot is at its end: it offers nothing any more.
    pub fn ended(&self, slot: u32) {
        self.got(slot, 0);
    }

    /// The reader of the link in this slot has got so many bytes, or may get so many, and has offered all that it had before.
    pub(crate) fn got(&self, slot: u32, bytes: usize) {
        let most = u32::try_from(bytes.div_ceil(LEAST)).unwrap_or(u32::MAX);
        if let Some(held) = self.held.get(slot as usize) {
            let before = held.swap(most, Ordering::SeqCst);
            let more = i64::from(most) - i64::from(before);
            self.in_hand.fetch_add(more, Ordering::SeqCst);
        }
    }
}
