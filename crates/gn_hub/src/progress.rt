//! How far a call went that makes several steps in one hold of the lock.

ghost use Rattle.std.specs.Prelude.{◌≡◌, Some};
ghost use Rattle.gn_rules.specs.declared.refusal.Refusal.TheVariants.{NoMemory};

use gn_rules::Refusal;

/// How far a call went that was given several events.
#[derive(Clone, Copy, Debug)]
pub struct Progress {
    /// How many of them made their steps: the first ones, in order.
    pub done: usize,
    /// Why the next one made none. None where all of them made theirs, or the next one would have had to wait for room.
    pub refusal: Option<Refusal>,
}

impl Progress {
    /// None was begun: out of memory.
    pub(crate) fn no_memory() -> Progress
        ensures done { result.done ≡ 0 }
        ensures refusal { result.refusal ≡ Some NoMemory }
    {
        Progress {
            done: 0,
            refusal: Some(Refusal::NoMemory),
        }
    }
}
