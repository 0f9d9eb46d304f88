//! How callers are accepted beside the links of a run that takes any number of them.

use crate::doorstep::{Doorstep, Guest};
use crate::entrance::Entrance;
use crate::rate::Rate;
use crate::registering::{stopper_of, threads_come};
use std::alloc::{Allocator, Global};
use std::sync::Wait;
use std::thread::Threads;
use std::time::Clock;

/// Who accepts callers, one at a time, as the run wants one.
#[derive(Drop)]
pub(crate) struct Accepter<'a, N, A: Allocator = Global> {
    pub entrance: Entrance<'a, N, A>,
    pub doorstep: &'a Doorstep<'a>,
    /// How many of one address are let in within a minute; `None`: as many as come.
    pub callers_a_minute: Option<u32>,
}

impl<'a, N: Threads + Wait + Clock, A: Allocator> Accepter<'a, N, A> {
    /// Waits for a caller, and puts it on the doorstep once it has all handles that it needs, and the system gives its link's threads.
    /// Where the run is stopped meanwhile, or too many of its address have come, it is let go.
    fn accept(&self, rate: &mut Rate) {
        let (net, stops) = (self.entrance.net, self.entrance.stops);
        let Ok(mut found) = self.entrance.accept() else {
            self.doorstep.fail(net);
            return;
        };
        if found.is_missing() {
            return;
        }
        if !rate.lets_in(net, found.peer().ip()) {
            self.doorstep.want();
            return;
        }
        let Some(stopper) = stopper_of(net, stops, &mut found) else {
            return;
        };
        // a run ends where it is refused one of them
        if threads_come(net, stops) {
            self.doorstep.put(net, Guest::new(found, stopper));
        }
    }

    /// Accepts callers until the run is stopped, or over, or nobody can be accepted any more.
    pub(crate) fn run(&self) {
        let (net, stops) = (self.entrance.net, self.entrance.stops);
        let mut rate = Rate::new(self.entrance.cells, self.callers_a_minute);
        for _ in net.forever() {
            if stops.is_stopped() || stops.is_over() || self.doorstep.has_failed() {
                return;
            }
            if self.doorstep.wait(net) {
                self.accept(&mut rate);
            }
        }
    }
}
