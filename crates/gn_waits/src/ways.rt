//! How the halves of a link read, and end.

ghost use Rattle.std.specs.Prelude.{◌≤◌};

use crate::brake::Brake;
use std::sync::atomic::{AtomicBool, Ordering};
use std::time::Duration;

/// The most bytes that a read gives under the brake: those of the least descriptor, so that it completes one at most.
const FEW: usize = 23;

/// How the halves of a link read, and end.
#[derive(Clone, Copy)]
pub struct Ways<'s> {
    /// A wait that is longer fails; `None`: there is no limit.
    pub idle: Option<Duration>,
    /// Once it is set, nothing is read any more.
    pub stop: Option<&'s AtomicBool>,
    /// Once it is set, a read gives a few bytes at most. It learns what each read gave.
    pub brake: Option<&'s Brake>,
    /// The slot of the link in its run, by which the brake knows it.
    pub slot: u32,
    /// Whether what the peer still sends at the end is read and dropped.
    pub lingers: bool,
}

impl Ways<'static> {
    /// It waits for everything, and lingers for nobody.
    pub const PLAIN: Ways<'static> = Ways {
        idle: None,
        stop: None,
        brake: None,
        slot: 0,
        lingers: false,
    };
}

impl<'s> Ways<'s> {
    /// The brake learns that the link's reader has so many bytes, or may get so many, and has offered all that it had before.
    pub fn tell_brake(&self, bytes: usize) {
        if let Some(brake) = self.brake {
            brake.got(self.slot, bytes);
        }
    }

    /// How many bytes a read gives at most, of so many that there is room for: a few where the brake is set. It learns that they
    /// may come.
    pub(crate) fn room(&self, room: usize) -> usize
        ensures { result ≤ room }
    {
        let Some(brake) = self.brake else {
            return room;
        };
        // it is said before the brake is looked at: who sets that sees what may come still
        brake.got(self.slot, room);
        let room = if room > FEW && brake.is_set() {
            FEW
        } else {
            room
        };
        brake.got(self.slot, room);
        room
    }

    /// Whether nothing is read any more.
    pub fn is_stopped(&self) -> bool {
        match self.stop {
            Some(stop) => stop.load(Ordering::SeqCst),
            None => false,
        }
    }

    /// Whether a peer may still send though its bytes are at their end, since a stop has ended them, and is to be heard out.
    pub fn holds_on(&self) -> bool {
        self.lingers && self.is_stopped()
    }

    /// Whether a socket takes its time limit: one of no time isn't taken.
    pub fn can_be_set(&self) -> bool {
        match self.idle {
            Some(idle) => !idle.is_zero(),
            None => true,
        }
    }
}
