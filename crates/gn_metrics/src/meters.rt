//! What is counted of a run, for whoever looks.

use crate::look::{COUNTERS, Look};
use std::array;
use std::sync::atomic::{AtomicU32, AtomicU64, Ordering};
use std::thread::yield_now;
use std::time::{Clock, SystemTime, UNIX_EPOCH};

/// How often a look is tried that the writer of the history comes between.
const TRIES: u32 = 64;

/// What is counted of a run and its history. Nobody waits here: who counts writes on, and who looks while it does looks again.
pub struct Meters {
    /// How often the counts of the history were begun and done to be written: an odd number while they are.
    turns: AtomicU64,
    counts: [AtomicU32; COUNTERS],
    /// The counts of the history that the run goes on with.
    before: [AtomicU32; COUNTERS],
    bytes: AtomicU64,
    made: AtomicU64,
    links: AtomicU64,
    most: u32,
    since: u64,
}

impl Drop for Meters {
    fn drop(self) {
        let Meters {
            turns: _,
            counts: _,
            before: _,
            bytes: _,
            made: _,
            links: _,
            most: _,
            since: _,
        } = self;
    }
}

/// The seconds since 1970; 0 where the clock can't be read.
fn seconds_now<R: Clock>(rt: &R) -> u64 {
    let Ok(now) = SystemTime::now(rt) else {
        return 0;
    };
    match now.duration_since(UNIX_EPOCH) {
        Ok(since) => since.as_secs(),
        Err(_) => 0,
    }
}

impl Meters {
    /// Nothing is counted of a run that begins now, whose history has at most so many steps.
    pub fn new<R: Clock>(rt: &R, most: u32) -> Self {
        Meters {
            turns: AtomicU64::new(0),
            counts: array::from_fn(|_| AtomicU32::new(0)),
            before: array::from_fn(|_| AtomicU32::new(0)),
            bytes: AtomicU64::new(0),
            made: AtomicU64::new(0),
            links: AtomicU64::new(0),
            most,
            since: seconds_now(rt),
        }
    }

    /// A thread has made one more step.
    pub fn add_made(&self) {
        self.made.fetch_add(1, Ordering::SeqCst);
    }

    /// One more link has come.
    pub fn add_link(&self) {
        self.links.fetch_add(1, Ordering::SeqCst);
    }

    /// The run goes on with a history of which so much was counted, and of whose steps so many were made by threads. It is said before anything
    /// is written.
    pub fn go_on(&self, counts: &[u32; COUNTERS], made: u64) {
        // before the counts, so that no look sees more steps counted than were made
        self.made.fetch_add(made, Ordering::SeqCst);
        for place in 0..COUNTERS {
            self.before[place].store(counts[place], Ordering::SeqCst);
        }
    }

    /// So much was counted of what is written by now. One thread says so.
    pub fn put(&self, counts: &[u32; COUNTERS], bytes: u64) {
        self.turns.fetch_add(1, Ordering::SeqCst);
        for place in 0..COUNTERS {
            self.counts[place].store(counts[place], Ordering::SeqCst);
        }
        self.bytes.store(bytes, Ordering::SeqCst);
        self.turns.fetch_add(1, Ordering::SeqCst);
    }

    /// The count at this place, of what was written and of the history before it.
    fn count(&self, place: usize) -> u32 {
        let (Some(count), Some(before)) = (self.counts.get(place), self.before.get(place)) else {
            return 0;
        };
        let count = count.load(Ordering::SeqCst);
        count.saturating_add(before.load(Ordering::SeqCst))
    }

    /// What stands there, whoever comes between.
    fn seen(&self) -> Look {
        Look {
            counts: array::from_fn(|place: usize| self.count(place)),
            bytes: self.bytes.load(Ordering::SeqCst),
            made: self.made.load(Ordering::SeqCst),
            links: self.links.load(Ordering::SeqCst),
            most: self.most,
            since: self.since,
        }
    }

    /// What is counted by now: the counts of one beginning of the history, unless its writer comes between again and again.
    pub fn look(&self) -> Look {
        for _ in 0..TRIES {
            let turns = self.turns.load(Ordering::SeqCst);
            let look = self.seen();
            if turns % 2 == 0 && self.turns.load(Ordering::SeqCst) == turns {
                return look;
            }
            yield_now();
        }
        self.seen()
    }
}
