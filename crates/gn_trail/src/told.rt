//! Bytes that were told, and aren't kept.

ghost use Rattle.std.specs.Prelude.{◌≡◌, ◌++◌, ◌∷◌, []};

use crate::heard::Heard;
use std::marker::Model;
use std::snapshot::Snapshot;

/// The bytes that were told so far, which only contracts see: it is seen as the list of them, and keeps none of them.
#[derive(Drop)]
pub struct Told {
    heard: Heard,
}

impl Model for Told {
    ghost use Rattle.std.specs.Prelude.{ℕ, List};
    ghost use Rattle.gn_trail.specs.Heard.{bytes_heard};

    ghost Value = { List ℕ };

    ghost view = { λ t. bytes_heard t.heard };
}

impl Told {
    /// Nothing was told yet.
    pub fn new() -> Self
        ensures { result ≡ [] }
    {
        Told {
            heard: Heard::Nothing,
        }
    }

    /// This byte was told next.
    fn push(&mut self, byte: u8)
        ensures { self.new ≡ self.old ++ byte ∷ [] }
    {
        let before = Snapshot::of(&self.heard);
        self.heard = Heard::Then(before, byte);
    }

    /// These were told next. Only a read or a write that gave or took them tells bytes.
    pub(crate) fn add(&mut self, bytes: &[u8])
        ensures { self.new ≡ self.old ++ bytes.now }
    {
        for byte in bytes {
            self.push(*byte);
        }
    }
}
