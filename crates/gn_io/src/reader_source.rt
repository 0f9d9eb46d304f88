//! A reader of std as a source.

ghost use Rattle.std.specs.Prelude.{◌≡◌, []};

use crate::fault::IoFault;
use crate::source::Source;
use gn_trail::{Told, read_told};
use std::io::Read;

/// A source over a reader of std: a slice, a `Cursor`, a standard stream. Which bytes the last will give isn't known, but which
/// it gave is.
#[derive(Drop)]
pub struct ReaderSource<R: Read> {
    reader: R,
    failures: u64,
    given: u64,
    /// The bytes that it gave.
    told: Told,
}

impl<R: Read> ReaderSource<R> {
    /// A source of what the reader still has, with no count yet.
    pub fn new(reader: R) -> Self
        ensures reader { result.reader ≡ reader }
        ensures failures { result.failures ≡ 0 }
        ensures given { result.given ≡ 0 }
        ensures told { result.told ≡ [] }
    {
        ReaderSource {
            reader,
            failures: 0,
            given: 0,
            told: Told::new(),
        }
    }
}

impl<R: Read> Source for ReaderSource<R> {
    ghost state = { λ s. record {
      rest = R.remaining s.reader;
      told = s.told;
      failures = s.failures;
      given = s.given;
    } };

    fn read(&mut self, room: &mut [u8]) -> Result<usize, IoFault> {
        match read_told(&mut self.reader, &mut self.told, room) {
            Ok(n) => {
                self.given = self.given.saturating_add(n as u64);
                Ok(n)
            }
            Err(_) => {
                self.failures = self.failures.saturating_add(1);
                Err(IoFault)
            }
        }
    }
}
