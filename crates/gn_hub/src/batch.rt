//! How much a writer takes at once.

use std::marker::Model;

/// How many packets a writer takes at once at most.
#[derive(Clone, Copy, Debug)]
pub struct Batch {
    most: u32,
}

impl Model for Batch {
    ghost use Rattle.std.specs.Prelude.{ℕ, ◌<◌};

    ghost Value = { ℕ };

    ghost view = { λ batch. batch.most };

    ghost inverse = { λ most. record { most = most } };

    ghost invariant = { λ batch. 0 < batch.most };
}

impl Batch {
    ghost use Rattle.std.specs.Prelude.{◌≡◌, ◌<◌, ◌==◌, if◌then◌else◌, Some, None};

    /// One packet.
    pub fn one() -> Batch
        ensures { result ≡ 1 }
    {
        Batch { most: 1 }
    }

    /// At most so many packets. None at 0.
    pub fn of(many: u32) -> Option<Batch>
        ensures { result ≡ (if many == 0 then None else Some many) }
    {
        if many == 0 {
            return None;
        }
        Some(Batch { most: many })
    }

    /// How many packets.
    pub fn most(&self) -> u32
        ensures same { result ≡ self.now }
        ensures some { 0 < result }
    {
        self.most
    }
}
