//! Which links flood a run: those of which descriptors are refused at the threshold of one connection, second after second.

use gn_links::Place;
use std::array;
use std::sync::atomic::{AtomicBool, AtomicU32, Ordering};
use std::time::Duration;

/// As many slots as a run has at most.
pub(crate) const SLOTS: usize = 256;

/// A link, and of how many whole seconds up to now in each descriptors of it were refused.
#[derive(Clone, Copy, Debug)]
pub(crate) struct Flood {
    pub link: u32,
    pub seconds: u32,
}

/// What is known of the last link in a slot of which descriptors were refused.
#[derive(Drop)]
struct Crowd {
    /// The link. Its reader alone changes this, and sets the next one.
    link: AtomicU32,
    /// Whether a descriptor was refused since the last look.
    is_crowded: AtomicBool,
    /// The link whose looks are counted, and how many on end found one. Who looks alone changes them.
    counted: AtomicU32,
    looks: AtomicU32,
}

impl Crowd {
    /// None was refused.
    fn new() -> Self {
        Crowd {
            link: AtomicU32::new(0),
            is_crowded: AtomicBool::new(false),
            counted: AtomicU32::new(0),
            looks: AtomicU32::new(0),
        }
    }

    /// One of this link was refused, which is in the slot now.
    fn add(&self, link: u32) {
        // a flood comes here a million times a second: most find all as it is to be
        if self.link.load(Ordering::SeqCst) != link {
            self.link.store(link, Ordering::SeqCst);
        }
        if !self.is_crowded.load(Ordering::SeqCst) {
            self.is_crowded.store(true, Ordering::SeqCst);
        }
    }

    /// Looks, as one does each second. The link, and how many looks on end up to this one found that descriptors of it were refused.
    fn look(&self) -> (u32, u32) {
        let was = self.link.load(Ordering::SeqCst);
        let is_found = self.is_crowded.swap(false, Ordering::SeqCst);
        let link = self.link.load(Ordering::SeqCst);
        // what the last link in the slot left isn't this one's
        let is_crowded = is_found && link == was;
        let before = if self.counted.swap(link, Ordering::SeqCst) == link {
            self.looks.load(Ordering::SeqCst)
        } else {
            0
        };
        let looks = if is_crowded {
            before.saturating_add(1)
        } else {
            0
        };
        self.looks.store(looks, Ordering::SeqCst);
        (link, looks)
    }
}

/// For how long a link may flood a run, and what is known of the links.
pub(crate) struct Floods {
    limit: Duration,
    crowds: [Crowd; SLOTS],
}

impl Drop for Floods {
    fn drop(self) {
        let Floods {
            limit: _,
            crowds: _,
        } = self;
    }
}

impl Floods {
    /// None has flooded yet that may do so for so long; `None`: without a limit.
    pub(crate) fn new(limit: Option<Duration>) -> Option<Self> {
        let limit = limit?;
        Some(Floods {
            limit,
            crowds: array::from_fn(|_| Crowd::new()),
        })
    }

    /// A descriptor of the link in this place was refused at the threshold of its connection.
    pub(crate) fn add(&self, place: Place) {
        if let Some(crowd) = self.crowds.get(place.slot as usize) {
            crowd.add(place.link);
        }
    }

    /// Looks at this slot, as one does each second. Its link, where that has flooded for as long as it may.
    pub(crate) fn look(&self, slot: usize) -> Option<Flood> {
        let (link, looks) = self.crowds.get(slot)?.look();
        // the first one found when it began, within a second
        let seconds = looks.checked_sub(1)?;
        if Duration::from_secs(u64::from(seconds)) < self.limit {
            return None;
        }
        Some(Flood { link, seconds })
    }
}
