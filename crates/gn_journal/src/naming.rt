//! What is known of a journal's ring by the journal's type.

use std::alloc::{Allocator, Global};
use std::marker::Brand;

/// The ring of a journal, as proofs name it. A call of a program picks it.
pub trait Naming<A: Allocator> {
    ghost use Rattle.std.specs.Prelude.{Option};
    ghost use Rattle.gn_journal.specs.Rings.{RingName};

    ghost ring: { Option (RingName A) };
}

impl Naming<Global> for Brand {
    ghost use Rattle.std.specs.Prelude.{None};

    ghost ring = { None };
}
