//! The law of what is counted.

ghost use Rattle.gn_metrics.specs.Histories.{CountsHistories, CountsNoComments};

use std::alloc::Allocator;

/// The law that what is counted of the text of a history is how many of its steps had each reply or reason to drop.
pub fn history_is_counted<A: Allocator>()
    ensures { CountsHistories A }
{}

/// The law that comments count nothing.
pub fn comments_count_nothing()
    ensures { CountsNoComments }
{}
