//! What the system said of a fault, on the line below the fault's.

use crate::misfit::Misfit;
use gn_tcp::Unmet;
use std::fmt;
use std::fmt::{Display, Formatter, Write};
use std::io::ErrorKind;
use std::net::SocketAddr;

/// What the system said, and of what. Its text is its line, with the line feed.
#[derive(Clone, Copy)]
pub(crate) enum Told {
    /// It said nothing.
    Nothing,
    /// Of listening at this address.
    Listen(SocketAddr, Unmet),
    /// Nothing: the serve can't go on with a history, for this.
    Before(Misfit),
    /// Of calling this peer.
    Call(SocketAddr, ErrorKind),
}

impl Told {
    /// Whether a history is at fault, so that its text stands in place of the run's fault.
    pub(crate) fn is_misfit(&self) -> bool {
        matches!(self, Told::Before(_))
    }
}

impl Display for Told {
    fn fmt<W: Write>(&self, f: &mut Formatter<W>) -> fmt::Result {
        match self {
            Told::Nothing => Ok(()),
            Told::Before(misfit) => write!(f, "{misfit}"),
            Told::Listen(here, unmet) if unmet.wants_handle => {
                writeln!(f, "listen {here}: no handle left")
            }
            Told::Listen(here, unmet) => writeln!(f, "listen {here}: {}", unmet.why),
            Told::Call(peer, why) => writeln!(f, "call {peer}: {why}"),
        }
    }
}
