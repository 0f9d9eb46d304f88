//! How many steps a run has made and may still have to make.

ghost use Rattle.std.specs.Prelude.{◌≡◌};
ghost use Rattle.gn_service.specs.Owing.{certain_steps};

use crate::serving::Serve;
use crate::stop::Stop;
use gn_links::Made;
use std::sync::atomic::{AtomicI64, AtomicU64, Ordering};

/// The most descriptors that one read of a link completes.
const PIECE: u64 = 179;

/// How many steps a run has made, and may still have to make: the routes of what is in flight, a step for each packet that may wait for a
/// link, and the Connect and the Close of each link. What a route has queued isn't known, so each counts as one packet for each link that
/// is there, up to what their queues hold; one that is still to come counts as one for each link that may be connected by then.
///
/// A link is there before it can connect, and until both of its threads have ended.
#[derive(Debug)]
pub(crate) struct Owed {
    /// How many steps the run may make.
    most: u64,
    /// How many descriptors may be under way to their routes at a time.
    crew: u32,
    /// How many packets may wait for one link: those that its queue holds, a batch that was just taken from there, and one of each route
    /// that is under way.
    queue: u64,
    /// How many links may be connected at a time.
    links: u64,
    /// The steps that were made, and a route for each descriptor in flight.
    steps: AtomicU64,
    in_flight: AtomicI64,
    /// The links that are there.
    present: AtomicI64,
    /// The descriptors that went to their routes.
    entered: AtomicI64,
    waiting: AtomicI64,
}

impl Drop for Owed {
    fn drop(self) {
        let Owed {
            most: _,
            crew: _,
            queue: _,
            links: _,
            steps: _,
            in_flight: _,
            present: _,
            entered: _,
            waiting: _,
        } = self;
    }
}

/// How near a run is to its last step.
#[derive(Clone, Copy, Debug, PartialEq, Eq)]
pub(crate) enum Nearness {
    Far,
    /// What its readers have in hand might take it into the last tenth.
    Near,
    /// What it reads next might take it beyond its last step, or nine tenths are made.
    Due,
}

/// What an atomic holds, where that isn't below 0 for the moment.
fn seen(count: &AtomicI64) -> u64 {
    u64::try_from(count.load(Ordering::SeqCst)).unwrap_or(0)
}

/// How many steps of a run this one makes certain.
fn steps_of(step: Made) -> u64
    ensures { result ≡ certain_steps step }
{
    match step {
        Made::Admitted(_) => 2,
        Made::Routed => 0,
        _ => 1,
    }
}

impl Owed {
    /// Of a run of these limits, which has made no steps, and of whose links so many may be connected at a time; `None`, where this
    /// stops no run before its last steps.
    pub(crate) fn of<G, M>(serve: &Serve<'_, '_, G, M>, stop: &Stop, links: u32) -> Option<Self> {
        if !stop.is_early() {
            return None;
        }
        let (numbers, batch) = (&serve.config.numbers, serve.batch.most());
        // those that are under way are in flight
        let crew = serve.workers.saturating_mul(batch).min(numbers.stage);
        let queue = u64::from(numbers.out)
            .saturating_add(u64::from(batch))
            .saturating_add(u64::from(crew));
        Some(Owed {
            most: u64::from(numbers.steps),
            crew,
            queue,
            links: u64::from(links.min(numbers.neighbours)),
            steps: AtomicU64::new(0),
            in_flight: AtomicI64::new(0),
            present: AtomicI64::new(0),
            entered: AtomicI64::new(0),
            waiting: AtomicI64::new(0),
        })
    }

    /// A link is there. Those that are under way to their routes counted no packet for it.
    pub(crate) fn came(&self) {
        self.present.fetch_add(1, Ordering::SeqCst);
        let entered = self.entered.load(Ordering::SeqCst);
        let under_way = entered.min(i64::from(self.crew));
        self.waiting.fetch_add(under_way, Ordering::SeqCst);
    }

    /// A link isn't there any more.
    pub(crate) fn went(&self) {
        self.present.fetch_sub(1, Ordering::SeqCst);
    }

    /// A packet may wait for each link that is there.
    fn send(&self) {
        let present = self.present.load(Ordering::SeqCst);
        self.waiting.fetch_add(present, Ordering::SeqCst);
    }

    /// A descriptor goes to its route: its step was counted when it was admitted.
    pub(crate) fn routed(&self) {
        // it is said before the links are counted: one that comes then counts it
        self.entered.fetch_add(1, Ordering::SeqCst);
        self.send();
        self.in_flight.fetch_sub(1, Ordering::SeqCst);
    }

    /// The own servent sends a Ping to each connection.
    pub(crate) fn originated(&self) {
        self.send();
        self.steps.fetch_add(1, Ordering::SeqCst);
    }

    /// A step of before was made again. What is in flight by then is routed before a link comes.
    pub(crate) fn recalled(&self) {
        self.steps.fetch_add(1, Ordering::SeqCst);
    }

    /// A step of a link's threads was made.
    pub(crate) fn made(&self, step: Made) {
        match step {
            Made::Admitted(_) => {
                self.in_flight.fetch_add(1, Ordering::SeqCst);
            }
            Made::Routed => self.routed(),
            Made::Taken => {
                self.waiting.fetch_sub(1, Ordering::SeqCst);
            }
            Made::Connected | Made::TooMany | Made::Refused { .. } | Made::Closed => {}
        }
        self.steps.fetch_add(steps_of(step), Ordering::SeqCst);
    }

    /// How near the run is to its last step, where its readers have so many descriptors in hand.
    pub(crate) fn nearness(&self, in_hand: u64) -> Nearness {
        let present = seen(&self.present);
        let queues = present.saturating_mul(self.queue);
        let flying = seen(&self.in_flight).saturating_mul(self.links);
        let packets = seen(&self.waiting).min(queues).saturating_add(flying);
        let steps = self.steps.load(Ordering::SeqCst);
        // the packets, and two steps of each link of its own
        let owed = steps
            .saturating_add(packets)
            .saturating_add(present.saturating_mul(2));
        // a descriptor's admission, its route, and a packet for each link
        let each = self.links.saturating_add(2);
        // a descriptor of each link
        let read = self.links.saturating_mul(each);
        let held = owed.saturating_add(in_hand.saturating_mul(each));
        let nine_tenths = self.most / 10 * 9;
        // one that each link has just given, one that it is about to give, and a Ping of the own servent
        let next = read.saturating_mul(2).saturating_add(each);
        // a read of each link that is there: one that comes is counted before it reads
        let pieces = present.saturating_mul(each).saturating_mul(PIECE);
        if steps >= nine_tenths || held.saturating_add(next) >= self.most {
            Nearness::Due
        } else if owed.saturating_add(pieces) >= nine_tenths {
            Nearness::Near
        } else {
            Nearness::Far
        }
    }
}
