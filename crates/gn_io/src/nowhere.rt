//! A sink for output that nobody wants.

use crate::fault::IoFault;
use crate::sink::Sink;

/// A sink that takes all that it is given, and keeps none of it.
#[derive(Clone, Copy, Debug)]
pub struct Nowhere;

impl Sink for Nowhere {
    ghost use Rattle.std.specs.Prelude.{None};

    ghost state = { λ _. record { written = None; failures = 0; stalls = 0 } };

    fn write(&mut self, piece: &[u8]) -> Result<usize, IoFault> {
        Ok(piece.len())
    }
}
