//! Who watches a run while it goes on.

use crate::gate::{Gate, NoGate};
use std::io::ErrorKind;
use std::net::SocketAddr;
use std::sync::Wait;
use std::time::Duration;

/// A gate that learns when the run of a load begins, or that of a serve, and when it has ended; it is left what a load made.
pub trait Watch: Gate {
    /// So many links are loaded next.
    fn begin(&self, _links: usize) {}

    /// A router serves next, whose links come one by one, and whose history has at most so many steps.
    fn open(&self, _steps: u32) {}

    /// A link of a serve has come: the peer at this address called, or was called.
    fn came<R: Wait>(&self, _rt: &R, _link: u32, _peer: SocketAddr) {}

    /// The peer at this address can't be called, over this link: what the system said. The run ends for that.
    fn not_called(&self, _link: u32, _peer: SocketAddr, _why: ErrorKind) {}

    /// The peer at this address is let go, over this link: in each of the last seconds, so many, descriptors of it were refused at the
    /// threshold of its own connection.
    fn flooded(&self, _link: u32, _peer: SocketAddr, _seconds: u32) {}

    /// A serve goes on, whether or not anything is done. After how long it says so again, at the latest; `None`: it needn't.
    fn tick(&self) -> Option<Duration> {
        None
    }

    /// The run has ended, well or not, or there is none.
    fn end(&self) {}

    /// Lets go of what a load has made once its history is written.
    fn leave<T: Drop>(&self, rest: T) {
        drop(rest);
    }
}

impl Watch for NoGate {}
