//! The peers that a run calls: over which link each is called, when it is called again, and what is waited before.

use std::alloc::{AllocError, Allocator, Global};
use std::sync::atomic::{AtomicBool, Ordering};
use std::sync::{Condvar, CondvarTimeouts, Mutex, Wait};
use std::time::{Clock, Duration, Instant};

/// The most seconds that are waited before a peer is called.
const LONGEST: u64 = 60;

/// A connection that lasted for so many seconds has stood: once it has ended, only a second is waited before its peer is called.
const STOOD: u64 = 60;

/// A peer that is called.
#[derive(Drop)]
struct Callee {
    /// The last link over which it is called.
    link: u32,
    /// The seconds that are waited before it is called.
    wait: u64,
    /// When it came over that link; `None`: it hasn't, or the clock can't be read.
    came: Option<Instant>,
    /// Whether that link has ended, so that it is to be called over another one.
    is_gone: bool,
}

impl Callee {
    /// More is waited the next time: 1, 2, 4 seconds and so on.
    fn slow_down(&mut self) {
        self.wait = self.wait.saturating_mul(2).max(1).min(LONGEST);
    }

    /// It is called over this link.
    fn call(&mut self, link: u32) {
        self.link = link;
        self.is_gone = false;
    }

    /// Its link has ended, so long after it came over it, where it did.
    fn leave(&mut self, stood: Option<Duration>) {
        self.is_gone = true;
        self.came = None;
        match stood {
            Some(stood) if stood >= Duration::from_secs(STOOD) => self.wait = 1,
            _ => self.slow_down(),
        }
    }
}

/// The peers that were called, in the order of the run's peers.
#[derive(Drop)]
struct Called<A: Allocator = Global> {
    peers: Vec<Callee, A>,
}

impl<A: Allocator> Called<A> {
    /// The place of one that is to be called again, if one is.
    fn due(&self) -> Option<usize> {
        for (place, callee) in self.peers.iter().enumerate() {
            if callee.is_gone {
                return Some(place);
            }
        }
        None
    }

    /// The one in this place is called over this link. One that is called for the first time is the next.
    fn call(&mut self, place: usize, link: u32) -> Result<(), AllocError> {
        if let Some(callee) = self.peers.get_mut(place) {
            callee.call(link);
            return Ok(());
        }
        self.peers.push(Callee {
            link,
            wait: 0,
            came: None,
            is_gone: false,
        })?;
        Ok(())
    }

    /// The seconds that are waited before the one of this link is called.
    fn wait(&self, link: u32) -> u64 {
        for callee in &self.peers {
            if callee.link == link {
                return callee.wait;
            }
        }
        0
    }

    /// The one of this link couldn't be called.
    fn slow_down(&mut self, link: u32) {
        for callee in &mut self.peers {
            if callee.link == link {
                callee.slow_down();
            }
        }
    }

    /// The one of this link came then.
    fn come(&mut self, link: u32, now: Option<Instant>) {
        for callee in &mut self.peers {
            if callee.link == link {
                callee.came = now;
            }
        }
    }

    /// This link has ended. Where a peer was called over it, that is to be called again.
    fn leave<R: Clock>(&mut self, rt: &R, link: u32) {
        for callee in &mut self.peers {
            if callee.link == link && !callee.is_gone {
                let stood = match callee.came {
                    Some(came) => came.elapsed(rt).ok(),
                    None => None,
                };
                callee.leave(stood);
            }
        }
    }
}

/// The peers that were called, whom the run and those who call them share.
#[derive(Drop)]
pub(crate) struct Callees<A: Allocator = Global> {
    /// Whether each is called for as long as the run goes on: again, where it isn't there or goes.
    pub again: bool,
    called: Mutex<Called<A>>,
    woken: Condvar,
}

impl<A: Allocator> Callees<A> {
    /// None was called.
    pub(crate) fn new(alloc: A, again: bool) -> Self {
        Callees {
            again,
            called: Mutex::new(Called {
                peers: Vec::new(alloc),
            }),
            woken: Condvar::new(),
        }
    }

    /// The place of a peer that is to be called again, if one is.
    pub(crate) fn due<R: Wait>(&self, rt: &R) -> Option<usize> {
        self.called.lock(rt).due()
    }

    /// The peer in this place is called over this link. One that is called for the first time is the next.
    pub(crate) fn call<R: Wait>(&self, rt: &R, place: usize, link: u32) -> Result<(), AllocError> {
        self.called.lock(rt).call(place, link)
    }

    /// Waits before the peer of this link is called, but no longer once this is set and who waits is woken.
    pub(crate) fn wait<R: Wait + Clock>(&self, rt: &R, link: u32, is_stopped: &AtomicBool) {
        let called = self.called.lock(rt);
        let wait = Duration::from_secs(called.wait(link));
        let (called, _) = self.woken.wait_timeout_while(rt, called, wait, |_| {
            !is_stopped.load(Ordering::SeqCst)
        });
        drop(called);
    }

    /// Wakes those who wait.
    pub(crate) fn wake<R: Wait>(&self, rt: &R) {
        drop(self.called.lock(rt));
        self.woken.notify_all();
    }

    /// The peer of this link couldn't be called.
    pub(crate) fn slow_down<R: Wait>(&self, rt: &R, link: u32) {
        self.called.lock(rt).slow_down(link);
    }

    /// The peer of this link has come.
    pub(crate) fn come<R: Wait + Clock>(&self, rt: &R, link: u32) {
        let now = Instant::now(rt).ok();
        self.called.lock(rt).come(link, now);
    }

    /// This link has ended. A peer that was called over it is to be called again, where peers are.
    pub(crate) fn leave<R: Wait + Clock>(&self, rt: &R, link: u32) {
        if self.again {
            self.called.lock(rt).leave(rt, link);
        }
    }
}
