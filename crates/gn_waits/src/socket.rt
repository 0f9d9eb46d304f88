//! What a link has of its peer.

use crate::call::Call;
use crate::handles::second_handle;
use crate::patience::Patience;
use std::alloc::Global;
use std::net::TcpStream;
use std::sync::Arc;

/// What a link has of its peer, and each half of it until it gives that up.
#[derive(Drop)]
pub enum Socket {
    /// A handle of the link's socket.
    Connected(TcpStream),
    /// The call of its peer, which goes on: the socket is the one that the call gives.
    Called(Arc<Call, Global>),
    /// None: the peer never came.
    Missing,
}

impl Socket {
    /// What is had of a peer that came over this socket, or never came.
    pub(crate) fn of(stream: Option<TcpStream>) -> Self {
        match stream {
            Some(stream) => Socket::Connected(stream),
            None => Socket::Missing,
        }
    }

    /// What the other half has of the peer, maybe by this second handle; none where a socket's handles can't be had.
    pub fn other(&self, other: Option<TcpStream>, patience: &Patience<'_>) -> Option<Socket> {
        match self {
            Socket::Connected(stream) => {
                let stream = second_handle(stream, other, patience)?;
                Some(Socket::Connected(stream))
            }
            Socket::Called(call) if patience.ways.can_be_set() => {
                let call = Arc::try_clone(call).ok()?;
                Some(Socket::Called(call))
            }
            Socket::Called(_) => None,
            Socket::Missing => Some(Socket::Missing),
        }
    }
}
