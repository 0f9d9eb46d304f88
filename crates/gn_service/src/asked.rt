//! A call that a run asks for.

use gn_tcp::TcpCall;
use std::net::SocketAddr;

/// The peer of this link is to be called, and the halves of the link to learn how that ended.
#[derive(Drop)]
pub(crate) struct Asked {
    pub link: u32,
    pub peer: SocketAddr,
    pub call: TcpCall,
}
