//! A law of replay texts that no one call has.

ghost use Rattle.gn_replay.specs.ReplayText.{ReplayTextIsOne};

use std::alloc::Allocator;

/// The law that an input has exactly one replay text, and that what replay does with it is one thing.
pub fn replay_text_is_one<A: Allocator>()
    ensures { ReplayTextIsOne A }
{}
