//! The growths of calls, compared with those that they are to meet.

use gn_fixtures::{Call, Heap, growths_of_calls};
use std::alloc::{Allocator, Global};
use std::test::Fail;

/// Whether these calls meet so many growths. An `Err` has those that they meet. Each test calls it for any allocator: at the heap
/// itself a call is dear to prove.
pub(crate) fn meet<A: Allocator + Copy, T: Call<A>>(
    out: Global,
    heap: &Heap,
    alloc: A,
    calls: &[T],
    wanted: &[u64],
) -> Result<(), Fail> {
    let met = growths_of_calls(out, heap, alloc, calls)?;
    if met.as_slice() == wanted {
        Ok(())
    } else {
        Err(Fail::new(format_args!("{met:?}")))
    }
}
