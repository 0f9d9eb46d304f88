//! What a command of a case reads and writes.

use std::alloc::Global;
use std::io::{self, ErrorKind, Read, Write};

/// A text that is read, or a stream that fails at once.
#[derive(Drop)]
pub(crate) struct Given<'a> {
    text: &'a [u8],
    fails: bool,
}

impl<'a> Given<'a> {
    /// This text, unless it fails.
    pub(crate) fn new(text: &'a [u8], fails: bool) -> Self {
        Given { text, fails }
    }
}

impl<'a> Read for Given<'a> {
    fn read(&mut self, room: &mut [u8]) -> io::Result<usize> {
        if self.fails {
            return Err(io::Error::from(ErrorKind::ConnectionReset));
        }
        self.text.read(room)
    }
}

/// What was written to a stream, or one that fails at once.
#[derive(Drop)]
pub(crate) struct Taken {
    pub(crate) text: Vec<u8>,
    fails: bool,
}

impl Taken {
    /// Nothing was written yet.
    pub(crate) fn new(alloc: Global, fails: bool) -> Self {
        Taken {
            text: Vec::new(alloc),
            fails,
        }
    }
}

impl Write for Taken {
    fn write(&mut self, piece: &[u8]) -> io::Result<usize> {
        if self.fails {
            return Err(io::Error::from(ErrorKind::BrokenPipe));
        }
        self.text.write(piece)
    }

    fn flush(&mut self) -> io::Result<()> {
        Ok(())
    }
}
