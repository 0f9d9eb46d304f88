//! Text written on a sink.

use gn_io::{IoFault, Sink, write_all};
use std::fmt;
use std::fmt::{Display, Write};

/// Room for any text of this program: a fault line, or one page of help.
const ROOM: usize = 4096;

/// A sink as a writer of text, which writes once there is no more room, and at the end.
#[derive(Drop)]
struct TextSink<'a, W: Sink> {
    sink: &'a mut W,
    room: [u8; ROOM],
    used: usize,
}

impl<W: Sink> TextSink<'_, W> {
    /// Writes what waits.
    fn flush(&mut self) -> Result<(), IoFault> {
        let used = self.used.min(ROOM);
        self.used = 0;
        write_all(self.sink, &self.room[..used])
    }

    /// Adds a text to what waits, which is written each time it fills the room.
    fn push(&mut self, text: &[u8]) -> Result<(), IoFault> {
        for &byte in text {
            if self.used >= ROOM {
                self.flush()?;
            }
            if self.used < ROOM {
                self.room[self.used] = byte;
                self.used += 1;
            }
        }
        Ok(())
    }
}

impl<W: Sink> Write for TextSink<'_, W> {
    fn write_str(&mut self, text: &str) -> fmt::Result {
        self.push(text.as_bytes()).map_err(|_| fmt::Error)
    }
}

/// Writes what a value's `Display` says, at once where that is no more than 4,096 bytes, with no memory.
pub(crate) fn write_text<W: Sink, D: Display + Drop>(
    sink: &mut W,
    value: D,
) -> Result<(), IoFault> {
    let mut text = TextSink {
        sink,
        room: [0; ROOM],
        used: 0,
    };
    match write!(text, "{value}") {
        Ok(()) => text.flush(),
        Err(_) => Err(IoFault),
    }
}
