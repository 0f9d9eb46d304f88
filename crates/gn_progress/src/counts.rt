//! What a run has done by now.

use gn_links::{Made, Place};
use std::array;
use std::sync::atomic::{AtomicU32, AtomicU64, Ordering};

/// As many slots as a run has at most.
const SLOTS: usize = 256;

/// How many descriptors the last link in a slot has offered, admitted or refused. The link's reader alone changes it.
#[derive(Drop)]
struct Offered {
    link: AtomicU32,
    count: AtomicU32,
}

impl Offered {
    /// No link was in the slot.
    fn new() -> Self {
        Offered {
            link: AtomicU32::new(0),
            count: AtomicU32::new(0),
        }
    }

    /// This link, which is in the slot now, has offered one more.
    fn add(&self, link: u32) {
        if self.link.swap(link, Ordering::SeqCst) != link {
            self.count.store(0, Ordering::SeqCst);
        }
        self.count.fetch_add(1, Ordering::SeqCst);
    }
}

/// What a run has done by now.
#[derive(Drop)]
pub(crate) struct Counts {
    /// Links that it loads, or that have come.
    links: AtomicU64,
    /// Jobs that were taken to be routed.
    routed: AtomicU32,
    /// Descriptors that were admitted.
    admitted: AtomicU32,
    /// Descriptors that were refused at a threshold.
    busy: AtomicU32,
    steps: AtomicU32,
    /// The most steps of a serve's history; 0: it is a load.
    most: AtomicU32,
    /// The descriptors of the last link in each slot.
    offered: [Offered; SLOTS],
}

/// What a run had done at a look.
#[derive(Clone, Copy)]
pub(crate) struct Seen {
    pub(crate) links: u64,
    pub(crate) routed: u32,
    pub(crate) admitted: u32,
    pub(crate) busy: u32,
    pub(crate) steps: u32,
    /// The most steps of a serve; 0: it is a load.
    pub(crate) most: u32,
}

impl Seen {
    /// All that was counted in one number, which rises with each count.
    pub(crate) fn all(&self) -> u64 {
        let jobs = u64::from(self.routed) + u64::from(self.admitted) + u64::from(self.busy);
        jobs.saturating_add(u64::from(self.steps))
            .saturating_add(self.links)
    }
}

impl Counts {
    /// Nothing is done yet.
    pub(crate) fn new() -> Self {
        Counts {
            links: AtomicU64::new(0),
            routed: AtomicU32::new(0),
            admitted: AtomicU32::new(0),
            busy: AtomicU32::new(0),
            steps: AtomicU32::new(0),
            most: AtomicU32::new(0),
            offered: array::from_fn(|_| Offered::new()),
        }
    }

    /// What was done by now.
    pub(crate) fn seen(&self) -> Seen {
        Seen {
            links: self.links.load(Ordering::SeqCst),
            routed: self.routed.load(Ordering::SeqCst),
            admitted: self.admitted.load(Ordering::SeqCst),
            busy: self.busy.load(Ordering::SeqCst),
            steps: self.steps.load(Ordering::SeqCst),
            most: self.most(),
        }
    }

    /// The most steps of a serve; 0: it is a load.
    pub(crate) fn most(&self) -> u32 {
        self.most.load(Ordering::SeqCst)
    }

    /// It is a serve of at most so many steps.
    pub(crate) fn set_most(&self, steps: u32) {
        self.most.store(steps, Ordering::SeqCst);
    }

    /// So many links are loaded.
    pub(crate) fn set_links(&self, links: usize) {
        self.links.store(links as u64, Ordering::SeqCst);
    }

    /// One more link has come.
    pub(crate) fn add_link(&self) {
        self.links.fetch_add(1, Ordering::SeqCst);
    }

    /// How many were routed before this one.
    pub(crate) fn add_routed(&self) -> u32 {
        self.routed.fetch_add(1, Ordering::SeqCst)
    }

    /// The link in this place has made a step; of a serve also what it offered is counted.
    pub(crate) fn add_made(&self, place: Place, step: Made) {
        let count = match step {
            Made::Admitted(_) => &self.admitted,
            Made::Refused { .. } => &self.busy,
            Made::Routed => {
                self.routed.fetch_add(1, Ordering::SeqCst);
                return;
            }
            _ => return,
        };
        count.fetch_add(1, Ordering::SeqCst);
        if self.most() != 0 {
            self.add_offer(place);
        }
    }

    /// How many steps were made before this one.
    pub(crate) fn add_step(&self) -> u32 {
        self.steps.fetch_add(1, Ordering::SeqCst)
    }

    /// The link in this place has offered one more descriptor.
    fn add_offer(&self, place: Place) {
        if let Some(offered) = self.offered.get(place.slot as usize) {
            offered.add(place.link);
        }
    }

    /// The link that offered most of those that were the last in their slots, the first of several, and how many descriptors.
    pub(crate) fn loudest(&self) -> (u32, u32) {
        let mut loudest = (0, 0);
        for offered in &self.offered {
            let count = offered.count.load(Ordering::SeqCst);
            if count > loudest.1 {
                loudest = (offered.link.load(Ordering::SeqCst), count);
            }
        }
        loudest
    }
}
