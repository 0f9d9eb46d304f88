//! What stops a run over TCP before its peers end it.

ghost use Rattle.std.specs.Prelude.{◌≡◌, OnOk};
ghost use Rattle.std.specs.Io.KnownBytes.{IsAtEnd};

use gn_tcp::Brake;
use std::io::{self, Error, ErrorKind, Read};
use std::marker::Model;
use std::sync::Wait;
use std::sync::atomic::{AtomicBool, Ordering};
use std::thread::Parker;
use std::time::Duration;

/// By what a run over TCP is stopped before its peers end it: a time limit, nine tenths of its steps, or whoever holds this.
///
/// A run that is stopped reads no more, waits for no caller that is still missing, and calls nobody again. What it admitted is
/// routed and written, so that it answers as a run does that its peers ended; a peer that hasn't taken all of it once the run's
/// grace is over is let go. Each is for one run.
#[derive(Debug)]
pub struct Stop {
    limit: Option<Duration>,
    is_early: bool,
    is_set: AtomicBool,
    /// What has the run's readers read little at a time.
    brake: Brake,
    waiter: Parker,
}

impl Drop for Stop {
    fn drop(self) {
        let Stop {
            limit: _,
            is_early: _,
            is_set: _,
            brake: _,
            waiter: _,
        } = self;
    }
}

impl Model for Stop {
    ghost use Rattle.gn_service.specs.Stopping.{Stopping};

    ghost Value = { Stopping };

    ghost view = { λ s. record { limit = s.limit; is_early = s.is_early } };
}

impl Stop {
    /// It stops the run after so much time; `None`, or where the clock can't be read: at no time. Where it `is_early` it stops the
    /// run once nine tenths of the steps that it may make are made, or owed as the routes of what is in flight; or earlier, so that
    /// the packets that may still wait by then find their steps too.
    pub fn new(limit: Option<Duration>, is_early: bool) -> Self
        ensures { result ≡ record { limit = limit; is_early = is_early } }
    {
        Stop {
            limit,
            is_early,
            is_set: AtomicBool::new(false),
            brake: Brake::new(),
            waiter: Parker::new(),
        }
    }

    /// Stops the run, also one that hasn't begun.
    pub fn set(&self) {
        self.is_set.store(true, Ordering::SeqCst);
        self.wake();
    }

    /// Reads an input to its end, of which it keeps nothing, and then stops the run. A read that fails is the end too, and is
    /// answered.
    pub fn set_at_end<R: Read>(&self, input: &mut R) -> io::Result<()>
        ensures { OnOk result (IsAtEnd (R.remaining input.new)) }
    {
        let end = read_out(input);
        self.set();
        end
    }

    /// Whether the run is to stop, or has.
    pub fn is_set(&self) -> bool {
        self.is_set.load(Ordering::SeqCst)
    }

    /// Whether it stops the run before its last steps.
    pub(crate) fn is_early(&self) -> bool {
        self.is_early
    }

    /// What is set once the run is stopped.
    pub(crate) fn flag(&self) -> &AtomicBool {
        &self.is_set
    }

    /// What is set once the run's readers have to read little at a time.
    pub(crate) fn brake(&self) -> &Brake {
        &self.brake
    }

    /// Has who waits look again.
    pub(crate) fn wake(&self) {
        self.waiter.unpark();
    }

    /// Whether its time is over, so long after the run began; where the clock can't be read, it isn't.
    pub(crate) fn is_due(&self, now: Option<Duration>) -> bool {
        match (self.limit, now) {
            (Some(limit), Some(now)) => limit <= now,
            _ => false,
        }
    }

    /// Waits until it is woken, or its time is over, or this one is. One thread of a run waits here.
    pub(crate) fn wait<R: Wait>(&self, rt: &R, now: Option<Duration>, next: Option<Duration>) {
        let limit = if self.is_set() { None } else { self.limit };
        match (earlier(limit, next), now) {
            (Some(at), Some(now)) => self.waiter.park_timeout(rt, at.saturating_sub(now)),
            _ => self.waiter.park(rt),
        }
    }
}

/// Reads to the end of an input, and keeps nothing of it. An `Err` is a read that failed.
fn read_out<R: Read>(input: &mut R) -> io::Result<()>
    ensures { OnOk result (IsAtEnd (R.remaining input.new)) }
{
    let mut buffer = [0u8; 4096];
    for _ in 0..u64::MAX {
        match input.read(&mut buffer) {
            Ok(0) => return Ok(()),
            Ok(_) => {}
            Err(why) if why.kind() == ErrorKind::Interrupted => {}
            Err(why) => return Err(why),
        }
    }
    Err(Error::from(ErrorKind::FileTooLarge))
}

/// The earlier of two times, where there are any.
pub(crate) fn earlier(one: Option<Duration>, other: Option<Duration>) -> Option<Duration> {
    match (one, other) {
        (Some(one), Some(other)) => Some(if one < other { one } else { other }),
        (one, None) => one,
        (None, other) => other,
    }
}
