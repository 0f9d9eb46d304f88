//! Which growth a turn refuses, what a turn says of it, and the growths of several calls.

use crate::{Call, Heap, Refused, Turn, growths_of_call};
use std::alloc::{Allocator, Global};
use std::test::Fail;

/// The growth of this number is refused, alone or with all later ones.
pub fn refused_at(number: u64, with_later: bool) -> Refused {
    if with_later {
        Refused::From(number)
    } else {
        Refused::Only(number)
    }
}

/// Whether a turn met no refusal. An `Err` says at which one it went wrong.
pub fn has_answered(refused: Refused, turn: Turn) -> Result<bool, Fail> {
    match turn {
        Turn::Refused => Ok(false),
        Turn::Answered => Ok(true),
        Turn::Wrong => Err(Fail::new(format_args!("{refused:?}: wrong"))),
    }
}

/// How many growths each of these calls meets.
pub fn growths_of_calls<A: Allocator + Copy, T: Call<A>>(
    out: Global,
    heap: &Heap,
    alloc: A,
    calls: &[T],
) -> Result<Vec<u64>, Fail> {
    let mut all = Vec::new(out);
    for call in calls {
        all.push(growths_of_call(heap, alloc, call)?)?;
    }
    Ok(all)
}
