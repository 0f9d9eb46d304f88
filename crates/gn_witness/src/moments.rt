//! Whether a link carried only what it was given at each moment, by the histories at its ends.

ghost use Rattle.std.specs.Prelude.{IsTrue, reverse};
ghost use Rattle.gn_paths.specs.Networks.{Carries, CarriesInTime};
ghost use Rattle.gn_witness.specs.Pair.{HasMoment};

use crate::links::carries;
use gn_rules::{ConnId, Step};
use std::alloc::Allocator;

/// Whether the link carried only what it was given, in both directions.
fn carries_both<A: Allocator>(first: &[Step<A>], c: ConnId, second: &[Step<A>], d: ConnId) -> bool
    ensures { IsTrue result → Carries (reverse first.now) c (reverse second.now) d
        × Carries (reverse second.now) d (reverse first.now) c }
{
    if !carries(first, c, second, d) {
        return false;
    }
    carries(second, d, first, c)
}

/// Whether it did so until some moment of the first router.
fn has_moment<A: Allocator>(first: &[Step<A>], c: ConnId, until: &[Step<A>], d: ConnId) -> bool
    ensures { IsTrue result → HasMoment (reverse first.now) c (reverse until.now) d }
{
    for moment in 0..first.len() {
        if carries_both(&first[..moment], c, until, d) {
            return true;
        }
    }
    carries_both(first, c, until, d)
}

/// Whether for each moment of the second router there is a moment of the first one, such that until then the link between their
/// connections d and c had carried only what it was given, in both directions. Takes no memory, but long.
pub fn carries_in_time<A: Allocator>(
    first: &[Step<A>],
    c: ConnId,
    second: &[Step<A>],
    d: ConnId,
) -> bool
    ensures { IsTrue result → CarriesInTime (reverse first.now) c (reverse second.now) d }
{
    for until in 0..second.len() {
        if !has_moment(first, c, &second[..until], d) {
            return false;
        }
    }
    has_moment(first, c, second, d)
}
