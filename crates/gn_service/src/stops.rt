//! How a run over TCP is stopped before its peers end it, and how its links are let go.

use crate::asked::Asked;
use crate::callees::Callees;
use crate::floods::Floods;
use crate::live::LiveLinks;
use crate::owed::{Nearness, Owed};
use crate::serving::Serve;
use crate::stop::{Stop, earlier};
use gn_links::Half;
use gn_tcp::{ListenerStopper, TcpStopper};
use std::alloc::{AllocError, Allocator, Global};
use std::net::SocketAddr;
use std::sync::atomic::{AtomicBool, AtomicU64, Ordering};
use std::sync::{Mutex, Wait};
use std::time::{Clock, Duration, Instant};

/// The links of a run, its listener, and whether the run is over.
pub(crate) struct Stops<'a, A: Allocator = Global> {
    pub stop: &'a Stop,
    /// How long a peer that is let go, or one of a run that is stopped, has for what is written to it.
    grace: Duration,
    /// `None`, where the clock can't be read.
    begun: Option<Instant>,
    /// `None`, where the system gave no handle for it.
    listener: Option<ListenerStopper>,
    links: Mutex<LiveLinks<A>>,
    /// `None`: no number of steps stops the run.
    pub owed: Option<Owed>,
    /// `None`: no flood has a link shut.
    pub floods: Option<Floods>,
    pub callees: Callees<A>,
    /// The calls that nobody has begun yet.
    calls: Mutex<Vec<Asked, A>>,
    /// How many calls were asked for.
    asked: AtomicU64,
    has_failed: AtomicBool,
    /// The least link whose peer can't be called; `u64::MAX`: there is none.
    uncalled: AtomicU64,
    /// Whether memory was refused for a called link.
    lacks_memory: AtomicBool,
    is_over: AtomicBool,
}

impl<'a, A: Allocator> Drop for Stops<'a, A> {
    fn drop(self) {
        let Stops {
            stop: _,
            grace: _,
            begun: _,
            listener: _,
            links: _,
            owed: _,
            floods: _,
            callees: _,
            calls: _,
            asked: _,
            has_failed: _,
            uncalled: _,
            lacks_memory: _,
            is_over: _,
        } = self;
    }
}

/// When so much time has passed after now, where both are known.
pub(crate) fn later(now: Option<Duration>, tick: Option<Duration>) -> Option<Duration> {
    match (now, tick) {
        (Some(now), Some(tick)) => Some(now.saturating_add(tick)),
        _ => None,
    }
}

impl<'a, A: Allocator> Stops<'a, A> {
    /// Of a run that begins, which is asked for so, by its own stop where it is given none, calls its peers again or not, and of whose links
    /// so many may be connected at a time: no link has come yet.
    pub(crate) fn new<R: Clock, G, M>(
        rt: &R,
        alloc: A,
        serve: &Serve<'_, 'a, G, M>,
        own: &'a Stop,
        again: bool,
        links: u32,
    ) -> Self
    where
        A: Copy,
    {
        let serving = &serve.limits;
        let stop = match serving.stop {
            Some(stop) => stop,
            None => own,
        };
        Stops {
            stop,
            grace: serving.grace(),
            begun: Instant::now(rt).ok(),
            listener: ListenerStopper::of(serve.listener).ok(),
            links: Mutex::new(LiveLinks::new(alloc)),
            owed: Owed::of(serve, stop, links),
            floods: Floods::new(serving.flood),
            callees: Callees::new(alloc, again),
            calls: Mutex::new(Vec::new(alloc)),
            asked: AtomicU64::new(0),
            has_failed: AtomicBool::new(false),
            uncalled: AtomicU64::new(u64::MAX),
            lacks_memory: AtomicBool::new(false),
            is_over: AtomicBool::new(false),
        }
    }

    /// Whether the run is to end: it was told to, or its time is up.
    pub(crate) fn is_stopped(&self) -> bool {
        self.stop.is_set()
    }

    /// Whether no peer is called any more: the run is stopped, and not because one can't be called, at which each of the others is called
    /// to its end.
    pub(crate) fn lets_go(&self) -> bool {
        self.is_stopped() && self.uncalled().is_none()
    }

    /// The least link whose peer can't be called.
    pub(crate) fn uncalled(&self) -> Option<u32> {
        u32::try_from(self.uncalled.load(Ordering::SeqCst)).ok()
    }

    /// Whether memory was refused for a called link.
    pub(crate) fn lacks_memory(&self) -> bool {
        self.lacks_memory.load(Ordering::SeqCst)
    }

    /// A peer is to be called by somebody.
    pub(crate) fn ask<R: Wait>(&self, rt: &R, asked: Asked) -> Result<(), AllocError> {
        let pushed = self.calls.lock(rt).push(asked);
        pushed?;
        self.asked.fetch_add(1, Ordering::SeqCst);
        self.stop.wake();
        Ok(())
    }

    /// How many calls were asked for.
    pub(crate) fn asked(&self) -> u64 {
        self.asked.load(Ordering::SeqCst)
    }

    /// A call that nobody has begun, which the caller begins.
    pub(crate) fn next_call<R: Wait>(&self, rt: &R) -> Option<Asked> {
        self.calls.lock(rt).pop()
    }

    /// A call that nobody has begun, if there is one, is given up.
    pub(crate) fn give_up_next<R: Wait>(&self, rt: &R) {
        if let Some(asked) = self.next_call(rt) {
            asked.call.give_up(rt);
        }
    }

    /// The peer of this link can't be called, for which the run fails.
    pub(crate) fn give_up_call(&self, link: u32) {
        self.uncalled.fetch_min(u64::from(link), Ordering::SeqCst);
        self.fail();
    }

    /// Memory was refused for a called link, for which the run fails.
    pub(crate) fn lack_memory(&self) {
        self.lacks_memory.store(true, Ordering::SeqCst);
        self.fail();
    }

    /// Whether the run is over.
    pub(crate) fn is_over(&self) -> bool {
        self.is_over.load(Ordering::SeqCst)
    }

    /// Whether the run has failed.
    pub(crate) fn has_failed(&self) -> bool {
        self.has_failed.load(Ordering::SeqCst)
    }

    /// Whether who waits for a caller can be called away.
    pub(crate) fn has_listener(&self) -> bool {
        self.listener.is_some()
    }

    /// Nobody is accepted any more.
    pub(crate) fn close_listener(&self) {
        if let Some(listener) = &self.listener {
            listener.shut();
        }
    }

    /// How long ago the run began; `None`, where the clock can't be read.
    pub(crate) fn now<R: Clock>(&self, rt: &R) -> Option<Duration> {
        self.begun?.elapsed(rt).ok()
    }

    /// When a grace is over that begins now.
    fn grace_end(&self, now: Option<Duration>) -> Duration {
        match now {
            Some(now) => now.saturating_add(self.grace),
            None => Duration::ZERO,
        }
    }

    /// Slows the run down where it is near to its last step, and stops it where that might be next.
    pub(crate) fn look(&self) {
        let Some(owed) = &self.owed else {
            return;
        };
        let brake = self.stop.brake();
        match owed.nearness(brake.in_hand()) {
            Nearness::Far => {}
            Nearness::Near => brake.set(),
            Nearness::Due if self.is_stopped() => {}
            Nearness::Due => self.stop.set(),
        }
    }

    /// A link to this peer has come, whose threads make no step before.
    pub(crate) fn add<R: Wait>(
        &self,
        rt: &R,
        link: u32,
        peer: SocketAddr,
        stopper: TcpStopper,
    ) -> Result<(), AllocError> {
        let added = self.links.lock(rt).add(link, peer, stopper);
        added?;
        if let Some(owed) = &self.owed {
            owed.came();
            self.look();
        }
        self.stop.wake();
        Ok(())
    }

    /// A half of a link has ended. False where the link never came.
    pub(crate) fn ended<R: Wait + Clock>(&self, rt: &R, link: u32, half: Half) -> bool {
        let due = self.grace_end(self.now(rt));
        let ended = self.links.lock(rt).end(link, half, due);
        if let (Some(true), Some(owed)) = (ended, &self.owed) {
            owed.went();
        }
        self.stop.wake();
        ended.is_some()
    }

    /// Shuts this link at once, where it has come and wasn't shut before. Whose it was then.
    pub(crate) fn let_go<R: Wait>(&self, rt: &R, link: u32) -> Option<SocketAddr> {
        self.links.lock(rt).let_go(link)
    }

    /// The run has failed: its links are shut at once.
    pub(crate) fn fail(&self) {
        self.has_failed.store(true, Ordering::SeqCst);
        self.stop.set();
    }

    /// The run is over: nobody waits for its stop any more.
    pub(crate) fn end(&self) {
        self.is_over.store(true, Ordering::SeqCst);
        self.stop.wake();
    }

    /// The run is stopped: nobody is accepted, and its links are shut once the grace is over, or now, where it has failed.
    fn stop_links<R: Wait>(&self, rt: &R, now: Option<Duration>) {
        // it wakes who waits, which is this thread
        if !self.is_stopped() {
            self.stop.set();
        }
        let until = if self.has_failed() {
            Duration::ZERO
        } else {
            self.grace_end(now)
        };
        self.links.lock(rt).end_all(until);
        self.close_listener();
    }

    /// Stops the run where its time is over, shuts each link whose peer has had its grace, and waits until there is more to do, or
    /// so much time has passed.
    pub(crate) fn turn<R: Wait + Clock>(&self, rt: &R, tick: Option<Duration>) {
        let now = self.now(rt);
        if self.is_stopped() || self.stop.is_due(now) {
            self.stop_links(rt, now);
        }
        let next = self.links.lock(rt).shut_due(now);
        self.stop.wait(rt, now, earlier(next, later(now, tick)));
    }
}
