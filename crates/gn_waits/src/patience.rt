//! How long the reader of a link over TCP waits for bytes.

ghost use Rattle.std.specs.Prelude.{◌≡◌, ◌-◌, length};
ghost use Rattle.gn_shake.specs.Greeting.{greeting_of};

use crate::ways::Ways;
use gn_shake::Role;
use std::io::ErrorKind;
use std::net::TcpStream;
use std::time::Duration;

/// The milliseconds that a reader waits at least for more of a greeting.
const LEAST: u64 = 1;

/// The milliseconds after which a reader that may be stopped looks whether it is.
const LOOK: u64 = 200;

/// How long a reader waits. Where it has a time limit, each wait is at most half of the one before until its greeting is whole,
/// so that this has come within little more than twice the limit; from then on each is at most the limit. Where the reader may be
/// stopped, a wait goes on in looks.
#[derive(Clone, Copy)]
pub struct Patience<'s> {
    /// How it reads. The longest wait is the limit of these.
    pub ways: Ways<'s>,
    /// How long a wait may be by now.
    wait: Option<Duration>,
    /// How much of this wait is left.
    left: Option<Duration>,
    /// How long the socket waits at a time.
    turn: Option<Duration>,
    /// How many bytes of the greeting are missing.
    missing: usize,
}

impl<'s> Patience<'s> {
    /// That of a reader of a link of this role, which reads in these ways.
    pub fn new(ways: Ways<'s>, role: Role) -> Self
        ensures missing { result.missing ≡ length (greeting_of role) }
    {
        let missing = match role {
            Role::Accepting => gn_shake::request().len(),
            Role::Calling => gn_shake::consent().len(),
            Role::Plain => 0,
        };
        Patience {
            ways,
            wait: ways.idle,
            left: ways.idle,
            turn: turn_of(ways.idle, ways.stop.is_some()),
            missing,
        }
    }

    /// How long the socket waits at a time, at first.
    pub(crate) fn turn(&self) -> Option<Duration> {
        self.turn
    }

    /// So many bytes have come over this socket.
    pub fn hear(&mut self, stream: &TcpStream, n: usize)
        ensures missing { self.new.missing ≡ self.old.missing - n }
    {
        if self.missing > 0 {
            self.missing = self.missing.saturating_sub(n);
            self.wait = match self.wait {
                Some(wait) if self.missing > 0 => Some(half(wait)),
                _ => self.ways.idle,
            };
        }
        self.left = self.wait;
        self.set_turn(stream);
    }

    /// Whether a read that failed so is made again: its turn is over, and neither the patience nor the run is.
    pub(crate) fn goes_on(&mut self, stream: &TcpStream, why: ErrorKind) -> bool {
        why == ErrorKind::WouldBlock && !self.ways.is_stopped() && self.waits_on(stream)
    }

    /// The socket has waited for its turn. Whether it may go on to wait.
    fn waits_on(&mut self, stream: &TcpStream) -> bool {
        let Some(turn) = self.turn else {
            return false;
        };
        if let Some(left) = self.left {
            let left = left.saturating_sub(turn);
            if left.is_zero() {
                return false;
            }
            self.left = Some(left);
            self.set_turn(stream);
        }
        true
    }

    /// Has the socket wait as long at a time as what is left of the wait allows.
    fn set_turn(&mut self, stream: &TcpStream)
        ensures { self.new.missing ≡ self.old.missing }
    {
        let turn = turn_of(self.left, self.ways.stop.is_some());
        // where the system doesn't take it, the turn stays as it was
        if turn != self.turn && stream.set_read_timeout(turn).is_ok() {
            self.turn = turn;
        }
    }
}

/// How long a socket waits at a time, where so much is left of the wait.
fn turn_of(left: Option<Duration>, looks: bool) -> Option<Duration> {
    if !looks {
        return left;
    }
    let look = Duration::from_millis(LOOK);
    match left {
        Some(left) if left < look => Some(left),
        _ => Some(look),
    }
}

/// Half of a time, where that isn't too short to be waited.
fn half(time: Duration) -> Duration {
    let half = time / 2;
    let least = Duration::from_millis(LEAST);
    if half < least { least } else { half }
}
