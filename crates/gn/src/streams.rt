//! The standard streams of the program: open, and each with the reason of its last failure.

use std::fs::{File, OpenOptions};
use std::io;
use std::io::{ErrorKind, Read, Write};
use std::os::fd::{AsRawFd, IntoRawFd};
use std::rt::Files;
use std::sync::OnceLock;

/// The highest number of a standard stream.
const LAST_STREAM: i32 = 2;

/// Opens the null device in the place of each standard stream that is closed. Else a socket would get its number, and a
/// neighbour what is written for the operator.
pub(crate) fn open_all<R: Files<File = File>>(rt: &R) {
    for _ in 0..=LAST_STREAM {
        let opened = OpenOptions::new()
            .read(true)
            .write(true)
            .open(rt, "/dev/null");
        match opened {
            Ok(null) if null.as_raw_fd() <= LAST_STREAM => {
                // it stays open until the process ends
                let _ = null.into_raw_fd();
            }
            _ => return,
        }
    }
}

/// Why the first call of a stream that failed, and that isn't made again, did so. A thread that writes a history may leave it there.
pub(crate) type Why = OnceLock<ErrorKind>;

/// Leaves there why a call failed.
fn note(why: &Why, kind: ErrorKind) {
    if kind != ErrorKind::Interrupted {
        let _ = why.try_set(kind);
    }
}

/// A standard stream that leaves word of why a call failed.
#[derive(Drop)]
pub(crate) struct Noted<'w, T> {
    stream: T,
    why: &'w Why,
}

impl<'w, T> Noted<'w, T> {
    /// A stream whose failures are noted there.
    pub(crate) fn new(stream: T, why: &'w Why) -> Self {
        Noted { stream, why }
    }
}

impl<'w, T: Read> Read for Noted<'w, T> {
    fn read(&mut self, room: &mut [u8]) -> io::Result<usize> {
        let answer = self.stream.read(room);
        if let Err(why) = &answer {
            note(self.why, why.kind());
        }
        answer
    }
}

impl<'w, T: Write> Write for Noted<'w, T> {
    fn write(&mut self, piece: &[u8]) -> io::Result<usize> {
        let answer = self.stream.write(piece);
        if let Err(why) = &answer {
            note(self.why, why.kind());
        }
        answer
    }

    fn flush(&mut self) -> io::Result<()> {
        self.stream.flush()
    }
}

/// Whether a stream's reader has gone.
pub(crate) fn is_broken(why: &Why) -> bool {
    matches!(why.get(), Some(ErrorKind::BrokenPipe))
}

/// A stream for the operator, which says nothing once whoever reads the output has gone.
#[derive(Drop)]
pub(crate) struct Unbroken<'w, T> {
    stream: T,
    output: &'w Why,
}

impl<'w, T> Unbroken<'w, T> {
    /// A stream that is silent from when a failure noted for the output says that its reader has gone.
    pub(crate) fn new(stream: T, output: &'w Why) -> Self {
        Unbroken { stream, output }
    }
}

impl<'w, T: Write> Write for Unbroken<'w, T> {
    fn write(&mut self, piece: &[u8]) -> io::Result<usize> {
        if is_broken(self.output) {
            return Ok(piece.len());
        }
        self.stream.write(piece)
    }

    fn flush(&mut self) -> io::Result<()> {
        self.stream.flush()
    }
}
