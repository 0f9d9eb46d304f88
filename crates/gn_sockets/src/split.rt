//! The two halves of a link, over one socket.

ghost use Rattle.std.specs.Prelude.{◌≡◌, [], false, true, IfOk};

use crate::origin::TcpOrigin;
use crate::reader::TcpReader;
use crate::writer::TcpWriter;
use gn_links::LinkFault;
use gn_shake::Role;
use gn_waits::{Handle, Patience, Socket, Ways};
use std::net::{SocketAddr, TcpStream};
use std::snapshot::Snapshot;

/// The halves of a link of this role, which has this of its peer, and maybe a second handle of the socket. It fails where the system
/// gives no second handle, or doesn't take the time limit.
pub fn halves<'s>(
    socket: Socket,
    other: Option<TcpStream>,
    peer: SocketAddr,
    role: Role,
    origin: TcpOrigin,
    ways: Ways<'s>,
) -> Result<(TcpReader<'s>, TcpWriter), LinkFault>
    ensures reader { IfOk result (λ h. h.0 ≡ record {
      origin = origin;
      socket = socket;
      is_open = true;
      bytes = [];
      failures = 0;
      pieces = 0;
      has_ended = false;
    }) }
    ensures writer { IfOk result (λ h. h.1 ≡ record {
      origin = origin;
      socket = socket;
      is_finished = false;
      bytes = [];
      failures = 0;
      is_stuck = false;
    }) }
{
    let patience = Patience::new(ways, role);
    let Some(second) = socket.other(other, &patience) else {
        return Err(LinkFault);
    };
    let written = Handle::new(second, Snapshot::of(&socket));
    let one = Snapshot::of(&socket);
    let read = Handle::new(socket, one);
    let writer = TcpWriter::new(written, origin, ways.lingers);
    Ok((TcpReader::new(read, peer, origin, patience), writer))
}
