//! A writer of std as a sink.

ghost use Rattle.std.specs.Prelude.{◌≡◌, []};
ghost use Rattle.gn_io.specs.Streams.{held_or_told};

use crate::fault::IoFault;
use crate::sink::Sink;
use gn_trail::{Told, write_told};
use std::io::Write;
use std::snapshot::Snapshot;

/// A sink over a writer of std: a vector, a standard stream. Its bytes are those that the writer holds; those that it took, where
/// the writer doesn't say what it holds.
#[derive(Drop)]
pub struct WriterSink<W: Write> {
    writer: W,
    failures: u64,
    stalls: u64,
    /// The writer as it was at first.
    begun: Snapshot<W>,
    /// The bytes that it took.
    told: Told,
}

impl<W: Write> WriterSink<W> {
    /// A sink that adds to what the writer has, with no count yet.
    pub fn new(writer: W) -> Self
        ensures writer { result.writer ≡ writer }
        ensures failures { result.failures ≡ 0 }
        ensures stalls { result.stalls ≡ 0 }
        ensures begun { result.begun.value ≡ writer }
        ensures told { result.told ≡ [] }
    {
        let begun = Snapshot::of(&writer);
        WriterSink {
            writer,
            failures: 0,
            stalls: 0,
            begun,
            told: Told::new(),
        }
    }

    /// The writer, with all that was written.
    pub fn into_inner(self) -> W
        ensures { result ≡ self.writer }
    {
        self.writer
    }
}

impl<W: Write> Sink for WriterSink<W> {
    ghost state = { λ s. record {
      written = held_or_told (W.contents s.begun.value) (W.contents s.writer) s.told;
      failures = s.failures;
      stalls = s.stalls;
    } };

    fn write(&mut self, piece: &[u8]) -> Result<usize, IoFault> {
        match write_told(&mut self.writer, &mut self.told, piece) {
            Ok(n) => {
                if n == 0 && !piece.is_empty() {
                    self.stalls = self.stalls.saturating_add(1);
                }
                Ok(n)
            }
            Err(_) => {
                self.failures = self.failures.saturating_add(1);
                Err(IoFault)
            }
        }
    }
}
