//! A caller that is waited for so long and no longer.

use std::io;
use std::io::{ErrorKind, Read};
use std::net::TcpStream;
use std::sync::atomic::{AtomicBool, Ordering};

/// How often a caller is looked at: each look waits for `LOOK` milliseconds, or gives what has come.
const LOOKS: u32 = 20;

/// The milliseconds of a look.
pub(crate) const LOOK: u64 = 100;

/// Reads what a caller sends, whose socket waits so long at a read, in so many looks at most and until the run is over.
#[derive(Drop)]
pub(crate) struct Patient<'a> {
    stream: &'a TcpStream,
    is_over: &'a AtomicBool,
    looks: u32,
}

/// Whether an error says that nothing has come so far.
fn is_wait(error: &io::Error) -> bool {
    matches!(
        error.kind(),
        ErrorKind::WouldBlock | ErrorKind::TimedOut | ErrorKind::Interrupted
    )
}

impl<'a> Patient<'a> {
    /// Nothing is read yet.
    pub(crate) fn new(stream: &'a TcpStream, is_over: &'a AtomicBool) -> Self {
        Patient {
            stream,
            is_over,
            looks: LOOKS,
        }
    }
}

impl<'a> Read for Patient<'a> {
    fn read(&mut self, room: &mut [u8]) -> io::Result<usize> {
        while self.looks > 0 && !self.is_over.load(Ordering::SeqCst) {
            self.looks -= 1;
            let mut stream = self.stream;
            match stream.read(room) {
                Err(error) if is_wait(&error) => {}
                answer => return answer,
            }
        }
        Err(ErrorKind::TimedOut.into())
    }
}
