//! The laws of the steps of a run whose links come one after another, in the numbers of a run whose links are all known.

ghost use Rattle.gn_renumber.specs.Renumbered.{RenumberedIsOnly, RenumberedIsOwn};

use gn_actors::numbers_are_apart;
use std::alloc::Allocator;

/// The law that each actor has the same receipts under its other number.
pub fn renumbered_is_own<A: Allocator>()
    ensures { RenumberedIsOwn A }
{
    numbers_are_apart();
}

/// The law that no step is of an actor that the run doesn't have.
pub fn renumbered_is_only<A: Allocator>()
    ensures { RenumberedIsOnly A }
{}
