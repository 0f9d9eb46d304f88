//! What a run over the loopback is asked for.

use super::peers::Peer;
use gn_service::{Serving, Stop};
use std::time::Duration;

/// By what a run is stopped.
#[derive(Clone, Copy)]
pub(crate) enum StopBy {
    /// By nothing: it has no stop.
    Nothing,
    /// By a peer that does so.
    Peer,
    /// By a peer that does so, or after so many milliseconds.
    Time(u64),
    /// By a peer that does so, or by a history that is nearly full.
    Steps,
}

/// A run: what its peers do, and what it is asked for. Times are in milliseconds.
#[derive(Clone, Copy)]
pub(crate) struct Run {
    pub(crate) peer: Peer,
    /// How many callers are let in.
    pub(crate) accept: u32,
    /// The most steps that it makes.
    pub(crate) steps: u32,
    pub(crate) stop: StopBy,
    /// How long a read or a write waits at most.
    pub(crate) idle: Option<u64>,
    /// How long one is called again who can't be called.
    pub(crate) retry: Option<u64>,
    /// How long it goes on once it is stopped.
    pub(crate) grace: Option<u64>,
    /// Whether it calls other machines, too.
    pub(crate) calls_far: bool,
    /// Whether it also calls one that isn't there.
    pub(crate) calls_nobody: bool,
}

/// So many milliseconds, where there are any.
fn time_of(millis: Option<u64>) -> Option<Duration> {
    match millis {
        Some(millis) => Some(Duration::from_millis(millis)),
        None => None,
    }
}

impl Run {
    /// A run of two clients and a hundred steps at most, without other limits.
    pub(crate) const USUAL: Self = Run {
        peer: Peer::Two,
        accept: 2,
        steps: 100,
        stop: StopBy::Nothing,
        idle: None,
        retry: None,
        grace: None,
        calls_far: false,
        calls_nobody: false,
    };

    /// What may stop it.
    pub(super) fn stop(&self) -> Stop {
        match self.stop {
            StopBy::Time(millis) => Stop::new(time_of(Some(millis)), false),
            StopBy::Steps => Stop::new(None, true),
            StopBy::Nothing | StopBy::Peer => Stop::new(None, false),
        }
    }

    /// Its limits, of which this is its stop, where it has one.
    pub(super) fn serving<'s>(&self, stop: &'s Stop) -> Serving<'s> {
        let stop = match self.stop {
            StopBy::Nothing => None,
            _ => Some(stop),
        };
        Serving {
            idle: time_of(self.idle),
            retry: time_of(self.retry),
            grace: time_of(self.grace),
            flood: None,
            stop,
            is_kept: false,
            calls_far: self.calls_far,
        }
    }
}
