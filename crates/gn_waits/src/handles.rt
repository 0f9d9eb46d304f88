//! The two handles of a link's socket.

use crate::patience::Patience;
use std::net::TcpStream;

/// The second handle of a socket, the given one or else one that the system gives; none too where it doesn't take the time limits.
pub(crate) fn second_handle(
    stream: &TcpStream,
    other: Option<TcpStream>,
    patience: &Patience<'_>,
) -> Option<TcpStream> {
    if !takes_limits(stream, patience) {
        return None;
    }
    // A packet is small and waits for no other, so it shan't wait for the acknowledgement of the one before it either.
    // Where the system doesn't take this, the link is slower and else the same.
    let _ = stream.set_nodelay(true);
    match other {
        Some(other) => Some(other),
        None => stream.try_clone().ok(),
    }
}

/// Whether the system takes a socket's time limits.
fn takes_limits(stream: &TcpStream, patience: &Patience<'_>) -> bool {
    stream.set_read_timeout(patience.turn()).is_ok()
        && stream.set_write_timeout(patience.ways.idle).is_ok()
}
