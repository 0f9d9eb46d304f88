//! The watch of a serve, which keeps who came, and why a peer can't be called.

use crate::told::Told;
use gn_links::{Gate, Half, Made, Place, Watch};
use gn_load::ServeFault;
use gn_metrics::Meters;
use gn_threads::RunFault;
use std::alloc::Global;
use std::array;
use std::collections::VecDeque;
use std::io::ErrorKind;
use std::net::SocketAddr;
use std::sync::{Mutex, OnceLock, Wait};
use std::time::Duration;

/// As many peers as a command line names at most.
const PEERS: usize = 64;

/// As many links wait to be said at most: as many as there are at once.
pub(crate) const UNSAID: usize = 256;

/// Passes all on to who watches the run, and keeps the address of each peer that came until it is said, where it is to be, and what the
/// system said of each that can't be called. It counts steps and links where that is asked for.
#[derive(Drop)]
pub(crate) struct Calls<'w, G> {
    watch: &'w G,
    /// The links whose peers came and weren't said, the earliest first; `None`, where nobody says them.
    came: Option<Mutex<VecDeque<(u32, SocketAddr)>>>,
    whys: [OnceLock<(SocketAddr, ErrorKind)>; PEERS],
    /// Where steps and links are counted; `None`: nowhere.
    meters: Option<Meters>,
}

impl<'w, G> Calls<'w, G> {
    /// No peer has come, and each may be called. Whether those that come are said is known, and where all is counted.
    pub(crate) fn new(alloc: Global, watch: &'w G, are_said: bool, meters: Option<Meters>) -> Self {
        let came = if are_said {
            Some(Mutex::new(VecDeque::new(alloc)))
        } else {
            None
        };
        Calls {
            watch,
            came,
            whys: array::from_fn(|_| OnceLock::new()),
            meters,
        }
    }

    /// Where steps and links are counted, where they are.
    pub(crate) fn meters(&self) -> Option<&Meters> {
        self.meters.as_ref()
    }

    /// Counts a step.
    fn count(&self) {
        if let Some(meters) = &self.meters {
            meters.add_made();
        }
    }

    /// Keeps a link whose peer has come. Of more than may wait to be said the earliest is left out, and this one where there is no memory.
    fn keep<R: Wait>(&self, rt: &R, link: u32, peer: SocketAddr) {
        let Some(came) = &self.came else {
            return;
        };
        let mut came = came.lock(rt);
        if came.len() >= UNSAID {
            let _ = came.pop_front();
        }
        let _ = came.push_back((link, peer));
    }

    /// The earliest link whose peer came and that wasn't said, and the address of its peer. Who asks says it.
    pub(crate) fn next_came<R: Wait>(&self, rt: &R) -> Option<(u32, SocketAddr)> {
        let came = self.came.as_ref()?;
        came.lock(rt).pop_front()
    }

    /// What the system said where the run came to this: of a peer that can't be called, or else this.
    pub(crate) fn told(&self, answer: &Result<(), ServeFault>, told: Told) -> Told {
        let Err(ServeFault::Run(RunFault::Call(link))) = answer else {
            return told;
        };
        let Some(slot) = self.whys.get(*link as usize) else {
            return told;
        };
        match slot.get() {
            Some((peer, why)) => Told::Call(*peer, *why),
            None => told,
        }
    }
}

impl<'w, G: Gate> Gate for Calls<'w, G> {
    fn enter<W: Wait>(&self, rt: &W, worker: u32, ticket: u32) {
        self.watch.enter(rt, worker, ticket);
        self.count();
    }

    fn made(&self, place: Place, step: Made) {
        self.watch.made(place, step);
        self.count();
    }

    fn ended(&self, place: Place, half: Half) {
        self.watch.ended(place, half);
    }

    fn failed(&self) {
        self.watch.failed();
    }
}

impl<'w, G: Watch> Watch for Calls<'w, G> {
    fn begin(&self, links: usize) {
        self.watch.begin(links);
    }

    fn open(&self, steps: u32) {
        self.watch.open(steps);
    }

    fn came<R: Wait>(&self, rt: &R, link: u32, peer: SocketAddr) {
        self.keep(rt, link, peer);
        if let Some(meters) = &self.meters {
            meters.add_link();
        }
        self.watch.came(rt, link, peer);
    }

    fn not_called(&self, link: u32, peer: SocketAddr, why: ErrorKind) {
        if let Some(slot) = self.whys.get(link as usize) {
            let _ = slot.try_set((peer, why));
        }
        self.watch.not_called(link, peer, why);
    }

    fn flooded(&self, link: u32, peer: SocketAddr, seconds: u32) {
        self.watch.flooded(link, peer, seconds);
    }

    fn tick(&self) -> Option<Duration> {
        self.watch.tick()
    }

    fn end(&self) {
        self.watch.end();
    }

    fn leave<T: Drop>(&self, rest: T) {
        self.watch.leave(rest);
    }
}
