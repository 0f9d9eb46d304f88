//! What a run over TCP looks at each second: whether a Ping is due, and which neighbours flood it.

use crate::floods::{Floods, SLOTS};
use crate::pings::Reminder;
use crate::stop::earlier;
use crate::stops::{Stops, later};
use gn_links::Watch;
use std::alloc::Allocator;
use std::sync::Wait;
use std::time::{Clock, Duration};

/// Seconds between two looks whether a neighbour floods the run.
const LOOK: u64 = 1;

/// When something is due that is done each time so long after the last. Times are since the run began.
#[derive(Clone, Copy, Debug)]
struct Timer {
    /// `None`: it is never due.
    every: Option<Duration>,
    due: Option<Duration>,
}

impl Timer {
    /// So much time passes between two times; `None`: it is never due.
    fn new(every: Option<Duration>) -> Self {
        Timer { every, due: None }
    }

    /// Whether its time has come, which is counted from the first look on. If so, that is said once.
    fn has_come(&mut self, now: Option<Duration>) -> bool {
        let is_early = match (now, self.due) {
            (Some(now), Some(due)) => now < due,
            _ => false,
        };
        if is_early {
            return false;
        }
        let was_due = self.due.is_some() && now.is_some();
        self.due = later(now, self.every);
        was_due
    }
}

/// How long it is from now until this time, where both are known.
fn until(now: Option<Duration>, at: Option<Duration>) -> Option<Duration> {
    match (now, at) {
        (Some(now), Some(at)) => Some(at.saturating_sub(now)),
        _ => None,
    }
}

/// Lets each neighbour go that has flooded the run for as long as it may.
fn stem<R: Wait, G: Watch, A: Allocator>(rt: &R, stops: &Stops<'_, A>, watch: &G) {
    let Some(floods) = &stops.floods else {
        return;
    };
    for slot in 0..SLOTS {
        if let Some(flood) = floods.look(slot)
            && let Some(peer) = stops.let_go(rt, flood.link)
        {
            watch.flooded(flood.link, peer, flood.seconds);
        }
    }
}

/// When a Ping is due, where the run is reminded of Pings, and when its neighbours are looked at for floods.
#[derive(Drop)]
pub(crate) struct Looks<'a> {
    reminder: Option<&'a Reminder<'a>>,
    pings: Timer,
    floods: Timer,
}

impl<'a> Looks<'a> {
    /// Of a run that sends Pings where there is a reminder, and that ends links that flood it where floods are counted.
    pub(crate) fn new(reminder: Option<&'a Reminder<'a>>, floods: &Option<Floods>) -> Self {
        let every = match reminder {
            Some(reminder) => reminder.every(),
            None => None,
        };
        let look = match floods {
            Some(_) => Some(Duration::from_secs(LOOK)),
            None => None,
        };
        Looks {
            reminder,
            pings: Timer::new(every),
            floods: Timer::new(look),
        }
    }

    /// Reminds the run where a Ping is due, and lets neighbours go that flood it, where it is time. How long it is until the next time.
    pub(crate) fn look<R: Wait + Clock, G: Watch, A: Allocator>(
        &mut self,
        rt: &R,
        stops: &Stops<'_, A>,
        watch: &G,
    ) -> Option<Duration> {
        let now = stops.now(rt);
        if let Some(reminder) = self.reminder
            && self.pings.has_come(now)
        {
            reminder.remind(rt);
        }
        if self.floods.has_come(now) {
            stem(rt, stops, watch);
        }
        until(now, earlier(self.pings.due, self.floods.due))
    }
}
