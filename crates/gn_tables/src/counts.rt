//! How many of something each connection has.

ghost use Rattle.std.specs.Prelude.{◌≡◌, ◌<◌, ◌+◌, ◌-◌, ◌^◌};
ghost use Rattle.indexmap.specs.IndexMap.{spare};
ghost use Rattle.gn_tables.specs.Counts.{IsRecounted, count_at};

use indexmap::IndexMap;
use std::alloc::Allocator;
use std::hash::{BuildHasherDefault, FoldHasher};

/// Counts by connection. Where a count is 0, the connection isn't there.
pub(crate) type Counts<A> = IndexMap<u32, u32, BuildHasherDefault<FoldHasher>, A>;

/// The count of a connection.
pub(crate) fn count<A: Allocator + Copy>(counts: &Counts<A>, c: u32) -> u32
    ensures { result ≡ count_at c counts.now.entries }
{
    match counts.get(&c) {
        Some(count) => *count,
        None => 0,
    }
}

/// One more of a connection, where there is room for a count.
pub(crate) fn raise<A: Allocator + Copy>(counts: &mut Counts<A>, c: u32)
    requires room { 0 < spare counts.old }
    requires fits { count_at c counts.old.entries + 1 < 2 ^ 32 }
    ensures { IsRecounted c (count_at c counts.old.entries + 1) counts.old.entries counts.new.entries }
{
    let raised = count(counts, c) + 1;
    match counts.insert(c, raised) {
        Ok(_) => {}
        Err(_) => unreachable!(),
    }
}

/// One less of a connection that has any. It takes no memory.
pub(crate) fn lower<A: Allocator + Copy>(counts: &mut Counts<A>, c: u32)
    requires some { 0 < count_at c counts.old.entries }
    ensures { IsRecounted c (count_at c counts.old.entries - 1) counts.old.entries counts.new.entries }
{
    let lowered = count(counts, c) - 1;
    if lowered == 0 {
        counts.swap_remove(&c);
    } else {
        match counts.insert(c, lowered) {
            Ok(_) => {}
            Err(_) => unreachable!(),
        }
    }
}
