//! Why no peer was met.

use std::io;
use std::io::ErrorKind;

/// The error numbers of Linux that say that the process, or the system, has no more handles to give.
const NO_HANDLES: [i32; 2] = [libc::EMFILE, 23];

/// Why no peer was met.
#[derive(Clone, Copy, Debug, PartialEq, Eq)]
pub struct Unmet {
    /// What the system said.
    pub why: ErrorKind,
    /// Whether it had no handle for the socket. It may have one later.
    pub wants_handle: bool,
}

impl Unmet {
    /// What this error of the system says.
    pub fn of(error: &io::Error) -> Self {
        let wants_handle = match error.raw_os_error() {
            Some(number) => NO_HANDLES.contains(&number),
            None => false,
        };
        Unmet {
            why: error.kind(),
            wants_handle,
        }
    }
}
