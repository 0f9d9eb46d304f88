//! The laws of steps whose actors have other numbers.

ghost use Rattle.gn_renumber.specs.Moved.{MovedIsAlike, MovedIsLegal};

use std::alloc::Allocator;

/// The law that a legal history stays so where its actors have other numbers.
pub fn moved_is_legal<A: Allocator>()
    ensures { MovedIsLegal A }
{}

/// The law that what is said of events and replies alone stays so.
pub fn moved_is_alike<A: Allocator>()
    ensures { MovedIsAlike A }
{}
