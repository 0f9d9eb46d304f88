//! Where threads sleep that wait for a change on the hub.

use crate::asleep::{Asleep, WORDS, word_of};
use gn_rules::ConnId;
use std::array;
use std::sync::{Condvar, MutexGuard, Wait};

/// How many places a word has.
const BITS: usize = 64;

/// The condition variables of the threads that wait for a change: one for each place of writers, and one for all doors. The hub's lock
/// has who sleeps, and who has made a change lets it go before it wakes anybody.
pub(crate) struct Waiters {
    writers: [[Condvar; BITS]; WORDS],
    doors: Condvar,
}

impl Drop for Waiters {
    fn drop(self) {
        let Waiters {
            writers: _,
            doors: _,
        } = self;
    }
}

impl Waiters {
    /// Nobody waits yet.
    pub fn new() -> Self {
        Waiters {
            writers: array::from_fn(|_| array::from_fn(|_| Condvar::new())),
            doors: Condvar::new(),
        }
    }

    /// Lets the lock go, sleeps until the writer of this connection is woken, or for less long, and takes the lock again.
    pub fn sleep_for<'g, R: Wait, T>(
        &self,
        rt: &R,
        guard: MutexGuard<'g, T>,
        c: ConnId,
    ) -> MutexGuard<'g, T> {
        let places = &self.writers[word_of(c)];
        places[c as usize % BITS].wait(rt, guard)
    }

    /// The same until those are woken who wait at a door.
    pub fn sleep_at_door<'g, R: Wait, T>(
        &self,
        rt: &R,
        guard: MutexGuard<'g, T>,
    ) -> MutexGuard<'g, T> {
        self.doors.wait(rt, guard)
    }

    /// Wakes them.
    pub fn wake(&self, asleep: &Asleep) {
        for at in 0..WORDS {
            if asleep.words[at] != 0 {
                wake_word(&self.writers[at], asleep.words[at]);
            }
        }
        if asleep.at_door {
            self.doors.notify_all();
        }
    }
}

/// Wakes those of a word.
fn wake_word(places: &[Condvar; BITS], word: u64) {
    let mut left = word;
    for _ in 0..word.count_ones() {
        places[left.trailing_zeros() as usize % BITS].notify_all();
        left = left & left.wrapping_sub(1);
    }
}
