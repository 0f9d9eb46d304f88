//! A gate that knows who passed, and of which steps it was told.

use gn_links::{Gate, Half, Made, Place};
use std::cell::Cell;
use std::sync::Wait;

/// The first steps of which a gate was told, a word a step, in order; after the last of them no word.
pub(super) type Told = [&'static str; 8];

/// Keeps which worker passed it last, and with which ticket, of which steps it was told, of how many it was told with those who
/// passed, and which threads of a link it knows as ended.
#[derive(Drop)]
pub(super) struct Doorman {
    pub(super) last: Cell<Option<(u32, u32)>>,
    pub(super) told: Cell<Told>,
    pub(super) count: Cell<usize>,
    pub(super) ended: Cell<(bool, bool)>,
}

/// The word for a step of a link's threads.
fn word_of(step: Made) -> &'static str {
    match step {
        Made::Connected => "connected",
        Made::TooMany => "too many",
        Made::Admitted(_) => "admitted",
        Made::Refused { own: false } => "busy",
        Made::Refused { own: true } => "crowded",
        Made::Routed => "routed",
        Made::Taken => "taken",
        Made::Closed => "closed",
    }
}

impl Doorman {
    /// It knows of nothing.
    pub(super) fn new() -> Self {
        Doorman {
            last: Cell::new(None),
            told: Cell::new([""; 8]),
            count: Cell::new(0),
            ended: Cell::new((false, false)),
        }
    }

    /// Notes a word, while there is room for one.
    fn tell(&self, word: &'static str) {
        let count = self.count.get();
        let mut told = self.told.get();
        if let Some(next) = told.get_mut(count) {
            *next = word;
        }
        self.told.set(told);
        self.count.set(count.wrapping_add(1));
    }
}

impl Gate for Doorman {
    fn enter<R: Wait>(&self, _rt: &R, worker: u32, ticket: u32) {
        self.last.set(Some((worker, ticket)));
        self.tell("passed");
    }

    fn made(&self, _place: Place, step: Made) {
        self.tell(word_of(step));
    }

    fn ended(&self, _place: Place, half: Half) {
        let (reader, writer) = self.ended.get();
        self.ended.set(match half {
            Half::Reader => (true, writer),
            Half::Writer => (reader, true),
        });
    }
}
