//! How many reads of one link may give bytes in a run, and how many packets a writer takes at once.

ghost use Rattle.std.specs.Prelude.{◌≡◌};
ghost use Rattle.gn_rules.specs.Limits.{most_reads};

use gn_hub::Batch;
use gn_rules::Config;
use std::marker::{Brand, PhantomData};

/// Stands for a run, and says how many reads of one link may give bytes in it, and how many packets a writer takes at once at most. A
/// caller passes `Brand`, and picks the numbers.
pub trait Limited {
    ghost use Rattle.std.specs.Prelude.{ℕ};

    ghost turns: { ℕ };

    ghost batch: { ℕ };
}

impl Limited for Brand {
    ghost turns = { 0 };

    ghost batch = { 1 };
}

/// These numbers, of the run that `B` stands for.
#[derive(Drop)]
pub struct Limits<B: Limited> {
    pub turns: u32,
    pub batch: Batch,
    of: PhantomData<B>,
    pub ghost named: { (turns ≡ B.turns) × (batch ≡ B.batch) },
}

impl<B: Limited> Limits<B> {
    /// Of a run with this configuration, whose writers take so many packets at once at most.
    pub fn of(config: &Config, batch: Batch) -> Self
        requires turns { B.turns ≡ most_reads config.now.numbers.steps }
        requires batch { B.batch ≡ batch }
    {
        Limits {
            turns: config.numbers.most_reads(),
            batch,
            of: PhantomData,
        }
    }
}
