//! Links over TCP, on the loopback address alone unless another one is asked for.
#![tactic(auto)]

mod link;
mod stopper;
mod unmet;

pub use gn_sockets::{Socket, TcpOrigin, TcpReader, TcpWriter};
pub use gn_waits::{Brake, Call, TcpCall};
pub use link::{TcpLink, listen};
pub use stopper::{ListenerStopper, TcpStopper};
pub use unmet::Unmet;
