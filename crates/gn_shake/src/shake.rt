//! A greeting that is awaited: what of it has come, and whether something else came.

ghost use Rattle.std.specs.Prelude.{◌≡◌, [], false};
ghost use Rattle.gn_shake.specs.Shaking.{matching};
ghost use Rattle.gn_shake.specs.Greeting.{consent_text, request_text};

use crate::texts::{consent, request};
use std::marker::Model;

/// How far an awaited greeting has come: all of it (`Done`), a beginning (`More`), or bytes that differ (`Refused`).
#[derive(Clone, Copy, Debug, PartialEq, Eq)]
pub enum ShakeState {
    /// The stream so far is a beginning of the greeting.
    More,
    /// The stream begins with the greeting.
    Done,
    /// The stream differs from the greeting.
    Refused,
}

/// What one piece did to a greeting.
#[derive(Clone, Copy, Debug, PartialEq, Eq)]
pub struct Shaken {
    /// Bytes of the piece that belong to the greeting. Where it is done, those after them are descriptors'.
    pub used: usize,
    pub state: ShakeState,
}

impl Shaken {
    ghost use Rattle.std.specs.Prelude.{drop};

    /// What of the piece comes after the bytes that belong to the greeting.
    #[tactic(auto, using(std::proofs::lemmas::List::drop_all))]
    pub fn rest_of(self, piece: &[u8]) -> &[u8]
        ensures { result.now ≡ drop self.used piece.now }
    {
        if self.used <= piece.len() {
            &piece[self.used..]
        } else {
            &[]
        }
    }
}

/// A greeting that one side of a link awaits from the other.
#[derive(Debug, Drop)]
pub struct Shake {
    greeting: &'static [u8],
    matched: usize,
    refused: bool,
}

impl Model for Shake {
    ghost use Rattle.std.specs.Prelude.{length, take, ◌≤◌};
    ghost use Rattle.gn_shake.specs.Shaking.{Shaking};

    ghost Value = { Shaking };

    ghost view = { λ s. record { greeting = s.greeting.now; matched = take s.matched s.greeting.now; refused = s.refused } };

    ghost invariant = { λ s. s.matched ≤ length s.greeting.now };
}

impl Shake {
    ghost use Rattle.gn_shake.specs.Shaking.{answer_of, fed, shake_of, used_of};

    /// Awaits the request, as the servent that was called.
    pub fn accepting() -> Shake
        ensures { result ≡ shake_of request_text [] }
    {
        Shake::awaiting(request())
    }

    /// Awaits the consent, as the servent that calls.
    pub fn calling() -> Shake
        ensures { result ≡ shake_of consent_text [] }
    {
        Shake::awaiting(consent())
    }

    /// Nothing of the greeting has come yet.
    fn awaiting(greeting: &'static [u8]) -> Shake
        ensures { result ≡ record { greeting = greeting.now; matched = []; refused = false } }
    {
        Shake {
            greeting,
            matched: 0,
            refused: false,
        }
    }

    /// Takes the next piece of the stream. What is done stays done, and what is refused stays refused; neither uses a byte
    /// more. Takes no memory.
    pub fn feed(&mut self, piece: &[u8]) -> Shaken
        ensures state { result.state ≡ answer_of self.old piece.now }
        ensures used { result.used ≡ used_of self.old piece.now }
        ensures after { self.new ≡ fed self.old piece.now }
    {
        if self.refused {
            return Shaken {
                used: 0,
                state: ShakeState::Refused,
            };
        }
        let used = common_length(&self.greeting[self.matched..], piece);
        self.matched += used;
        let state = if self.matched == self.greeting.len() {
            ShakeState::Done
        } else if used == piece.len() {
            ShakeState::More
        } else {
            self.refused = true;
            ShakeState::Refused
        };
        Shaken { used, state }
    }
}

/// How many bytes two slices have in common, from their beginnings on.
fn common_length(a: &[u8], b: &[u8]) -> usize
    ensures { result ≡ matching a.now b.now }
{
    let mut n = 0;
    while n < a.len() && n < b.len() && a[n] == b[n] {
        n += 1;
    }
    n
}
