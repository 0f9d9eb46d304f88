//! Handles by which a link over TCP, or a listener, is ended from outside.

use gn_links::LinkFault;
use std::net::{Shutdown, TcpListener, TcpStream};
use std::os::fd::OwnedFd;

/// Another handle of a link's socket, by which both of its halves can be ended.
#[derive(Drop)]
pub struct TcpStopper {
    stream: TcpStream,
}

impl TcpStopper {
    /// Ends the link of which this is a further handle.
    pub(crate) fn new(stream: TcpStream) -> Self {
        TcpStopper { stream }
    }

    /// Ends both halves: the reader gets what has come by now, and then no bytes; a write that waits fails, and so does each
    /// later one. What the socket took is still sent, until the peer sends something more.
    pub fn shut(&self) {
        // it fails where the peer is gone, whose bytes have ended then
        let _ = self.stream.shutdown(Shutdown::Both);
    }
}

/// Another handle of a listener, by which it is closed, also while somebody waits there.
#[derive(Drop)]
pub struct ListenerStopper {
    socket: TcpStream,
}

impl ListenerStopper {
    /// Fails where the system gives no second handle of the listener.
    pub fn of(listener: &TcpListener) -> Result<Self, LinkFault> {
        match listener.try_clone() {
            Ok(other) => Ok(ListenerStopper {
                socket: TcpStream::from(OwnedFd::from(other)),
            }),
            Err(_) => Err(LinkFault),
        }
    }

    /// From now on nobody is accepted: who waits to accept gets an error, whoever calls is refused, and so are those who called
    /// and weren't accepted. Its handles stay.
    pub fn shut(&self) {
        // Linux closes a listening socket so; it fails where that was done before
        let _ = self.socket.shutdown(Shutdown::Both);
    }
}
