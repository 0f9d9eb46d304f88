//! The Pings that the own servent of a run sends its neighbours, so that those are found that have gone.

ghost use Rattle.std.specs.Prelude.{◌≡◌, is_some, true, IfSome};

use gn_room::Signal;
use gn_wire::Guid;
use std::sync::Wait;
use std::sync::atomic::{AtomicBool, Ordering};
use std::time::Duration;

/// The Pings that the own servent of a run sends its neighbours: how long after one the next one is due, and the ID of the first. In the last
/// four bytes of the others' IDs their number is added bit by bit. Where the time is zero none is sent.
#[derive(Clone, Copy, Debug)]
pub struct Pings {
    pub every: Duration,
    pub first: Guid,
}

/// By what who waits for the links of a run learns that a Ping is due.
#[derive(Drop)]
pub(crate) struct Reminder<'a> {
    signal: &'a Signal,
    every: Option<Duration>,
    is_due: AtomicBool,
}

impl<'a> Reminder<'a> {
    /// None of these is due yet. Who waits for links does so by this signal.
    pub(crate) fn new(signal: &'a Signal, pings: Option<Pings>) -> Self {
        Reminder {
            signal,
            every: match pings {
                Some(pings) if !pings.every.is_zero() => Some(pings.every),
                _ => None,
            },
            is_due: AtomicBool::new(false),
        }
    }

    /// How long after a Ping the next one is due; `None`: none is.
    pub(crate) fn every(&self) -> Option<Duration> {
        self.every
    }

    /// One is due, as who waits for links learns.
    pub(crate) fn remind<R: Wait>(&self, rt: &R) {
        self.is_due.store(true, Ordering::SeqCst);
        self.signal.raise(rt);
    }

    /// Whether one is due. If so, it is said once.
    fn is_due(&self) -> bool {
        self.is_due.swap(false, Ordering::SeqCst)
    }
}

/// The Pings of a run, and how many of them were sent.
#[derive(Drop)]
pub(crate) struct Pinging<'a> {
    pub pings: Option<Pings>,
    reminder: &'a Reminder<'a>,
    sent: u32,
}

impl<'a> Pinging<'a> {
    /// None of these was sent.
    pub(crate) fn new(pings: Option<Pings>, reminder: &'a Reminder<'a>) -> Self
        ensures { result.pings ≡ pings }
    {
        Pinging {
            pings,
            reminder,
            sent: 0,
        }
    }

    /// The ID of the Ping that is due, if one is.
    pub(crate) fn next(&mut self) -> Option<Guid>
        ensures same { self.new.pings ≡ self.old.pings }
        ensures some { IfSome result (λ _. is_some self.old.pings ≡ true) }
    {
        let pings = self.pings?;
        if !self.reminder.is_due() {
            return None;
        }
        let number = self.sent;
        self.sent = number.wrapping_add(1);
        Some(numbered(pings.first, number))
    }
}

/// The ID in whose last four bytes a number is added bit by bit.
fn numbered(first: Guid, number: u32) -> Guid {
    let Guid(mut bytes) = first;
    let [a, b, c, d] = number.to_be_bytes();
    bytes[12] ^= a;
    bytes[13] ^= b;
    bytes[14] ^= c;
    bytes[15] ^= d;
    Guid(bytes)
}
