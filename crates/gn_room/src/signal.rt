//! Who waits for the threads of a run to end learns of it here.

use std::array;
use std::sync::atomic::{AtomicU32, Ordering};
use std::sync::{Condvar, Mutex, Wait};

/// As many slots as links of a run have at most.
const SLOTS: usize = 256;

/// Which bodies of which slots have ended, for who joins them, and that something else has happened that it is to look at. No contract
/// rests on it: where it is wrong, a join waits.
pub struct Signal {
    ended: [AtomicU32; SLOTS],
    raised: Mutex<u64>,
    changed: Condvar,
}

impl Drop for Signal {
    fn drop(self) {
        let Signal {
            ended: _,
            raised: _,
            changed: _,
        } = self;
    }
}

impl Signal {
    /// One by which nothing has happened.
    pub fn new() -> Self {
        Signal {
            ended: array::from_fn(|_| AtomicU32::new(0)),
            raised: Mutex::new(0),
            changed: Condvar::new(),
        }
    }

    /// A body of the link at this slot is at its end.
    pub fn ended<R: Wait>(&self, rt: &R, slot: u32) {
        if let Some(ended) = self.ended.get(slot as usize)
            && ended.fetch_add(1, Ordering::SeqCst) > 0
        {
            self.raise(rt);
        }
    }

    /// Whether both bodies of the link at this slot are at their ends. If so, it is said once.
    pub fn have_ended(&self, slot: u32) -> bool {
        match self.ended.get(slot as usize) {
            Some(ended) if ended.load(Ordering::SeqCst) > 1 => {
                ended.store(0, Ordering::SeqCst);
                true
            }
            _ => false,
        }
    }

    /// Something has happened that who waits is to look at.
    pub fn raise<R: Wait>(&self, rt: &R) {
        let mut raised = self.raised.lock(rt);
        *raised = raised.wrapping_add(1);
        drop(raised);
        self.changed.notify_all();
    }

    /// For who waits for what happens from now on.
    pub fn waiting<R: Wait>(&self, rt: &R) -> Waiting<'_> {
        Waiting {
            signal: self,
            seen: *self.raised.lock(rt),
        }
    }
}

/// A wait that began at some time.
#[derive(Drop)]
pub struct Waiting<'s> {
    signal: &'s Signal,
    seen: u64,
}

impl<'s> Waiting<'s> {
    /// Waits until something has happened since.
    pub fn wait<R: Wait>(&self, rt: &R) {
        let Signal {
            raised,
            changed,
            ..
        } = self.signal;
        let seen = self.seen;
        drop(changed.wait_while(rt, raised.lock(rt), |raised| *raised == seen));
    }
}
