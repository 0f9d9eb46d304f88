//! What is known of a sink with comments by its type.

use std::marker::Brand;

/// The sink that a text and its comments are written to, as proofs name it, and how it stood at first. A call of a program picks them.
pub trait Naming {
    ghost use Rattle.std.specs.Prelude.{ℕ};
    ghost use Rattle.gn_io.specs.Streams.{SinkState};

    ghost sink: { ℕ };

    ghost begun: { SinkState };
}

impl Naming for Brand {
    ghost use Rattle.std.specs.Prelude.{None};

    ghost sink = { 0 };

    ghost begun = { record { written = None; failures = 0; stalls = 0 } };
}
