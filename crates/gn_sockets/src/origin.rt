//! Where a link over TCP comes from.

use std::net::SocketAddr;

/// Where a link over TCP comes from, as both of its halves say.
#[derive(Clone, Copy)]
pub struct TcpOrigin {
    /// The number of the link in its run, from 0.
    pub link: u32,
    /// The address that was called; `None`: a peer called.
    pub called: Option<SocketAddr>,
}
