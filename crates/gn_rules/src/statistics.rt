//! How many steps had each reply.

ghost use Rattle.std.specs.Prelude.{◌≡◌, ◌<◌, ◌+◌, ◌^◌};
ghost use Rattle.gn_rules.specs.Statistics.{counter_of, drop_counter, no_stats, raised, count_in};

use crate::reply::{DropReason, Reply};
use std::alloc::Allocator;

/// What is counted: a reply, or a reason to drop.
#[derive(Clone, Copy, Debug, PartialEq, Eq)]
pub enum Counter {
    Connected,
    TooMany,
    Closed,
    Admitted,
    Busy,
    Crowded,
    Routed,
    UnknownKind,
    Malformed,
    Duplicate,
    NoRoute,
    RouteGone,
    BackToSender,
    Expired,
    Taken,
    Sent,
}

/// How many steps each counter counted.
#[derive(Clone, Copy, Debug, PartialEq, Eq)]
pub struct Stats {
    /// In the order of `Counter::ALL`.
    pub counts: [u32; 16],
}

impl Counter {
    /// All counters, in the order in which they are printed.
    pub const ALL: [Counter; 16] = [
        Counter::Connected,
        Counter::TooMany,
        Counter::Closed,
        Counter::Admitted,
        Counter::Busy,
        Counter::Crowded,
        Counter::Routed,
        Counter::UnknownKind,
        Counter::Malformed,
        Counter::Duplicate,
        Counter::NoRoute,
        Counter::RouteGone,
        Counter::BackToSender,
        Counter::Expired,
        Counter::Taken,
        Counter::Sent,
    ];

    /// The counter of a reply.
    pub fn of<A: Allocator>(reply: &Reply<A>) -> Counter
        ensures { result ≡ counter_of reply.now }
    {
        match reply {
            Reply::Connected(_) => Counter::Connected,
            Reply::TooMany => Counter::TooMany,
            Reply::Closed(_) => Counter::Closed,
            Reply::Admitted(_) => Counter::Admitted,
            Reply::Busy => Counter::Busy,
            Reply::Crowded => Counter::Crowded,
            Reply::Routed { .. } => Counter::Routed,
            Reply::Dropped(reason) => Counter::of_drop(*reason),
            Reply::Taken(_) => Counter::Taken,
            Reply::Sent(_) => Counter::Sent,
        }
    }

    /// The counter of a reason to drop.
    pub fn of_drop(reason: DropReason) -> Counter
        ensures { result ≡ drop_counter reason }
    {
        match reason {
            DropReason::UnknownKind => Counter::UnknownKind,
            DropReason::Malformed => Counter::Malformed,
            DropReason::Duplicate => Counter::Duplicate,
            DropReason::NoRoute => Counter::NoRoute,
            DropReason::RouteGone => Counter::RouteGone,
            DropReason::BackToSender => Counter::BackToSender,
            DropReason::Expired => Counter::Expired,
        }
    }
}

impl Stats {
    /// Nothing counted.
    pub fn new() -> Stats
        ensures { result ≡ no_stats }
    {
        Stats { counts: [0; 16] }
    }

    /// The number of a counter.
    pub fn get(&self, counter: Counter) -> u32
        ensures { result ≡ count_in counter self.now }
    {
        self.counts[counter as usize]
    }

    /// Counts one more, at most up to the last u32, which no history reaches.
    pub fn raise(&mut self, counter: Counter)
        ensures more { count_in counter self.old + 1 < 2 ^ 32 → self.new ≡ raised counter self.old }
        ensures last { count_in counter self.old + 1 ≡ 2 ^ 32 → self.new ≡ self.old }
    {
        let place = counter as usize;
        self.counts[place] = one_more(self.counts[place]);
    }
}

/// One more, at most the last u32.
fn one_more(count: u32) -> u32
    ensures more { count + 1 < 2 ^ 32 → result ≡ count + 1 }
    ensures last { count + 1 ≡ 2 ^ 32 → result ≡ count }
{
    count.saturating_add(1)
}
