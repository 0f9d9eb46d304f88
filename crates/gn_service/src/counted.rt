//! The gate of a run over TCP, which stops the run where it has to end.

use crate::stops::Stops;
use gn_links::{Gate, Half, Made, Place};
use std::alloc::{Allocator, Global};
use std::sync::Wait;
use std::time::Clock;

/// Passes all on to who watches the run. It stops the run once that has failed, so that it waits for no caller any more; and
/// once so many steps are made or owed. It tells the run's links apart that have ended, and those that flood it.
#[derive(Drop)]
pub(crate) struct Counted<'a, G, R, A: Allocator = Global> {
    rt: &'a R,
    watch: &'a G,
    stops: &'a Stops<'a, A>,
}

impl<'a, G, R, A: Allocator> Counted<'a, G, R, A> {
    /// The gate of a run that has made no steps.
    pub(crate) fn new(rt: &'a R, watch: &'a G, stops: &'a Stops<'a, A>) -> Self {
        stops.look();
        Counted { rt, watch, stops }
    }

    /// The house has made a step of before again.
    pub(crate) fn recalled(&self) {
        if let Some(owed) = &self.stops.owed {
            owed.recalled();
            self.stops.look();
        }
    }

    /// The own servent sends its neighbours a Ping next.
    pub(crate) fn pings(&self) {
        if let Some(owed) = &self.stops.owed {
            owed.originated();
            self.stops.look();
        }
    }
}

impl<'a, G: Gate, R: Wait + Clock, A: Allocator> Gate for Counted<'a, G, R, A> {
    fn enter<W: Wait>(&self, rt: &W, worker: u32, ticket: u32) {
        self.watch.enter(rt, worker, ticket);
        if let Some(owed) = &self.stops.owed {
            owed.routed();
            self.stops.look();
        }
    }

    fn made(&self, place: Place, step: Made) {
        self.watch.made(place, step);
        if let (Made::Refused { own: true }, Some(floods)) = (step, &self.stops.floods) {
            floods.add(place);
        }
        if let Some(owed) = &self.stops.owed {
            owed.made(step);
            if let Made::Admitted(_) | Made::Refused { .. } = step {
                self.stops.stop.brake().offered(place.slot);
            }
            self.stops.look();
        }
    }

    /// Who watches learns of the links that came.
    fn ended(&self, place: Place, half: Half) {
        if let Half::Reader = half {
            self.stops.stop.brake().ended(place.slot);
        }
        if self.stops.ended(self.rt, place.link, half) {
            self.watch.ended(place, half);
        }
    }

    fn failed(&self) {
        self.watch.failed();
        self.stops.fail();
    }
}
