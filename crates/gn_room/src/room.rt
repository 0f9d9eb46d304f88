//! Room for the steps of a run that wait to be written.

use crossbeam_utils::CachePadded;
use std::sync::atomic::{AtomicBool, AtomicU64, Ordering};
use std::sync::{Condvar, Mutex, Wait};
use std::thread::yield_now;

/// How often a thread lets others run and looks again before it sleeps.
const TRIES: u32 = 32;

/// How many steps a run has made, and how many of them were taken to be written. Who makes a step waits here until there is room
/// for it, and who writes them until there is one.
///
/// The two counts are written by different threads, and stand on cache lines of their own.
pub struct Room {
    most: u64,
    made: CachePadded<AtomicU64>,
    taken: CachePadded<AtomicU64>,
    is_awaited: AtomicBool,
    is_idle: AtomicBool,
    is_over: AtomicBool,
    is_shut: AtomicBool,
    door: Mutex<()>,
    changed: Condvar,
}

impl Drop for Room {
    fn drop(self) {
        let Room {
            most: _,
            made: _,
            taken: _,
            is_awaited: _,
            is_idle: _,
            is_over: _,
            is_shut: _,
            door: _,
            changed: _,
        } = self;
    }
}

impl Room {
    /// Room where at most so many steps are made that weren't taken, and one more by each thread that didn't have to wait.
    pub fn of(most: u64) -> Self {
        Room {
            most,
            made: CachePadded::new(AtomicU64::new(0)),
            taken: CachePadded::new(AtomicU64::new(0)),
            is_awaited: AtomicBool::new(false),
            is_idle: AtomicBool::new(false),
            is_over: AtomicBool::new(false),
            is_shut: AtomicBool::new(false),
            door: Mutex::new(()),
            changed: Condvar::new(),
        }
    }

    /// Room without an end, for a run whose steps nobody takes.
    pub fn endless() -> Self {
        Room::of(u64::MAX)
    }

    /// How many steps were made that weren't taken.
    fn waiting(&self) -> u64 {
        let taken = self.taken.load(Ordering::SeqCst);
        self.made.load(Ordering::SeqCst).saturating_sub(taken)
    }

    /// Waits until there is room for a step. Whether there is: not where none is taken any more.
    pub fn wait<R: Wait>(&self, rt: &R) -> bool {
        for _ in 0..TRIES {
            if self.is_shut.load(Ordering::SeqCst) {
                return false;
            }
            if self.waiting() < self.most {
                return true;
            }
            yield_now();
        }
        self.sleep_until_room(rt)
    }

    /// For how many more steps there is room, where so many were made. Who has waited for room and makes several steps under the lock
    /// looks here once, as it has waited for the first alone.
    pub fn free(&self, made: u64) -> u64 {
        let waiting = made.saturating_sub(self.taken.load(Ordering::SeqCst));
        self.most.saturating_sub(waiting)
    }

    /// As `wait`, for a thread that has tried.
    fn sleep_until_room<R: Wait>(&self, rt: &R) -> bool {
        let mut door = self.door.lock(rt);
        for _ in rt.forever() {
            // Said before the counts are looked at, so that who takes a step after that sees it.
            self.is_awaited.store(true, Ordering::SeqCst);
            if self.is_shut.load(Ordering::SeqCst) {
                return false;
            }
            if self.waiting() < self.most {
                return true;
            }
            door = self.changed.wait(rt, door);
        }
        unreachable!()
    }

    /// So many steps were made by now. It is told under the lock under which they are made.
    pub fn made(&self, count: u64) {
        if self.most < u64::MAX {
            self.made.store(count, Ordering::SeqCst);
        }
    }

    /// Wakes who takes steps, where it sleeps. The first that finds it so does, and not each that makes a step until it runs again.
    pub fn wake<R: Wait>(&self, rt: &R) {
        // Looked at first, as it is mostly false, and a swap would take its cache line from the other threads at each step.
        if self.is_idle.load(Ordering::SeqCst) && self.is_idle.swap(false, Ordering::SeqCst) {
            self.notify(rt);
        }
    }

    /// So many more steps were taken.
    pub fn took<R: Wait>(&self, rt: &R, count: u64) {
        self.taken.fetch_add(count, Ordering::SeqCst);
        if self.is_awaited.swap(false, Ordering::SeqCst) {
            self.notify(rt);
        }
    }

    /// Waits until a step was made that wasn't taken, or no more will be.
    pub fn await_step<R: Wait>(&self, rt: &R) {
        for _ in 0..TRIES {
            if self.is_over() || self.waiting() > 0 {
                return;
            }
            yield_now();
        }
        self.sleep_until_step(rt);
    }

    /// As `await_step`, for a thread that has tried.
    fn sleep_until_step<R: Wait>(&self, rt: &R) {
        let mut door = self.door.lock(rt);
        for _ in rt.forever() {
            // Said before the counts are looked at, so that who makes a step after that sees it; again after each sleep, since who wakes
            // this thread takes it back.
            self.is_idle.store(true, Ordering::SeqCst);
            if self.is_over() || self.waiting() > 0 {
                break;
            }
            door = self.changed.wait(rt, door);
        }
        self.is_idle.store(false, Ordering::SeqCst);
        drop(door);
    }

    /// No more steps will be made.
    pub fn end<R: Wait>(&self, rt: &R) {
        self.is_over.store(true, Ordering::SeqCst);
        self.notify(rt);
    }

    /// Whether no more steps will be made.
    pub fn is_over(&self) -> bool {
        self.is_over.load(Ordering::SeqCst)
    }

    /// No more steps are taken: nobody waits for room from now on.
    pub fn shut<R: Wait>(&self, rt: &R) {
        self.is_shut.store(true, Ordering::SeqCst);
        self.notify(rt);
    }

    /// Wakes who sleeps. With the lock, so that none is between its look and its sleep.
    fn notify<R: Wait>(&self, rt: &R) {
        drop(self.door.lock(rt));
        self.changed.notify_all();
    }
}
