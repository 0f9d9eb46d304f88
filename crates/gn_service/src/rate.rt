//! How many callers of one address are let in within a minute.

ghost use Rattle.std.specs.Prelude.{◌≡◌};
ghost use Rattle.gn_service.specs.Rates.{minute_at, minute_with};

use lru::LruCache;
use std::alloc::Global;
use std::net::IpAddr;
use std::num::NonZeroUsize;
use std::time::{Clock, Duration, Instant};

/// Of so many addresses, those that called last, the callers are counted.
const ADDRESSES: usize = 1024;

/// The seconds of a minute.
const MINUTE: u64 = 60;

/// A minute of one address, and how many of its callers were let in since it began.
#[derive(Clone, Copy)]
struct Minute {
    begun: Instant,
    callers: u32,
}

impl Minute {
    /// The one that begins now.
    fn new(now: Instant) -> Self
        ensures { result ≡ record { begun = now; callers = 0 } }
    {
        Minute {
            begun: now,
            callers: 0,
        }
    }

    /// The address's minute now: this one, or where it is over a new one.
    fn at(self, now: Instant) -> Self
        ensures { result ≡ minute_at now self }
    {
        if now.duration_since(self.begun) < Duration::from_secs(MINUTE) {
            self
        } else {
            Minute::new(now)
        }
    }

    /// The same minute with one caller more, where fewer than so many were let in.
    fn with_caller(self, most: u32) -> Option<Self>
        ensures { result ≡ minute_with most self }
    {
        if self.callers < most {
            Some(Minute {
                callers: self.callers + 1,
                ..self
            })
        } else {
            None
        }
    }
}

/// How many callers of an address are let in within a minute, and the minutes of those that called last.
#[derive(Drop)]
struct Limit {
    most: u32,
    minutes: LruCache<IpAddr, Minute>,
}

impl Limit {
    /// Nobody has called. Without memory nobody is counted.
    fn new(alloc: Global, most: u32) -> Option<Self> {
        let addresses = NonZeroUsize::new(ADDRESSES)?;
        let minutes = LruCache::sparse(alloc, addresses).ok()?;
        Some(Limit { most, minutes })
    }

    /// Whether one of this address is let in who calls now. If so, it is counted, where there is memory for it.
    fn lets_in(&mut self, now: Instant, from: IpAddr) -> bool {
        let minute = match self.minutes.get(&from) {
            Some(minute) => minute.at(now),
            None => Minute::new(now),
        };
        let Some(minute) = minute.with_caller(self.most) else {
            return false;
        };
        let _ = self.minutes.put(from, minute);
        true
    }
}

/// Which callers of a run are let in, by how many of their address were within a minute.
#[derive(Drop)]
pub(crate) struct Rate {
    limit: Option<Limit>,
}

impl Rate {
    /// So many of an address are let in within a minute; `None`: as many as come.
    pub(crate) fn new(alloc: Global, most: Option<u32>) -> Self {
        Rate {
            limit: match most {
                Some(most) => Limit::new(alloc, most),
                None => None,
            },
        }
    }

    /// Whether one of this address is let in who calls now. Where the clock can't be read everybody is.
    pub(crate) fn lets_in<R: Clock>(&mut self, rt: &R, from: IpAddr) -> bool {
        match (&mut self.limit, Instant::now(rt)) {
            (Some(limit), Ok(now)) => limit.lets_in(now, from),
            _ => true,
        }
    }
}
