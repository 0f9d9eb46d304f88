//! Laws of a history's text that no one call proves.

ghost use Rattle.gn_capture.specs.RoundTrip.{IsReadBack, ReadIsEncoded, WrittenIsRead};

use crate::fitting::{own_fits, steps_fit};
use gn_rules::{Config, Step};
use std::alloc::Allocator;

/// The law that the text of a history says the very configuration and steps that it was written of: of all whose numbers
/// fit their types, and so of these. A call takes no memory and changes nothing.
pub fn written_is_read<A: Allocator>(config: &Config, steps: &[Step<A>])
    ensures all { WrittenIsRead A }
    ensures these { IsReadBack config.now steps.now }
{
    own_fits(&config.own);
    steps_fit(steps);
}

/// The law that a descriptor is read only of the bytes that encode it.
pub fn read_is_encoded()
    ensures { ReadIsEncoded }
{}
