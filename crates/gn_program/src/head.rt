//! The first bytes of an input, from which a fault of its first lines is told.

use std::cell::Cell;
use std::io;
use std::io::Read;

/// As many bytes as are kept.
const ROOM: usize = 1024;

/// The most bytes of an input: of a larger one nothing is told.
const MOST: u64 = 67_108_864;

/// Where the last line feed is, if there is one.
pub(crate) fn last_feed(bytes: &[u8]) -> Option<usize> {
    bytes.iter().rposition(|byte| *byte == b'\n')
}

/// The first bytes of an input, 1,024 at most.
#[derive(Drop)]
pub struct Head {
    bytes: Cell<[u8; ROOM]>,
    /// How many bytes were read in all.
    read: Cell<u64>,
    has_failed: Cell<bool>,
}

impl Head {
    /// Nothing is read yet.
    pub fn new() -> Self {
        Head {
            bytes: Cell::new([0; ROOM]),
            read: Cell::new(0),
            has_failed: Cell::new(false),
        }
    }

    /// How many bytes are kept.
    fn kept(&self) -> usize {
        usize::try_from(self.read.get()).unwrap_or(ROOM).min(ROOM)
    }

    /// Keeps what was read next, as far as there is room.
    fn keep(&self, piece: &[u8]) {
        let kept = self.kept();
        if kept < ROOM {
            let mut bytes = self.bytes.get();
            for (place, byte) in bytes.iter_mut().skip(kept).zip(piece) {
                *place = *byte;
            }
            self.bytes.set(bytes);
        }
        let read = self.read.get().saturating_add(piece.len() as u64);
        self.read.set(read);
    }

    /// The bytes that are kept, and how many of them are whole lines: none, where the input couldn't be read or is too large. The last
    /// line may lack its line feed where the input ends there.
    pub(crate) fn lines(&self) -> ([u8; ROOM], usize) {
        let bytes = self.bytes.get();
        if self.has_failed.get() || self.read.get() > MOST {
            return (bytes, 0);
        }
        let kept = self.kept();
        if kept < ROOM {
            return (bytes, kept);
        }
        (bytes, last_feed(&bytes).unwrap_or(0))
    }
}

/// A reader that leaves its first bytes there.
#[derive(Drop)]
pub struct Kept<'h, T> {
    reader: T,
    head: &'h Head,
}

impl<'h, T> Kept<'h, T> {
    /// Nothing is read of it yet.
    pub fn new(reader: T, head: &'h Head) -> Self {
        Kept { reader, head }
    }
}

impl<'h, T: Read> Read for Kept<'h, T> {
    fn read(&mut self, room: &mut [u8]) -> io::Result<usize> {
        let answer = self.reader.read(room);
        match &answer {
            Ok(n) => {
                if let Some(piece) = room.get(..*n) {
                    self.head.keep(piece);
                }
            }
            Err(_) => self.head.has_failed.set(true),
        }
        answer
    }
}
