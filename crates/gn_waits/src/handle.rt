//! The handle that a half of a link has of the link's socket.

ghost use Rattle.std.specs.Prelude.{◌≡◌, ◌≤◌, ◌++◌, false, true, length, IfOk};
ghost use Rattle.gn_links.specs.Halves.{read_by, written_by};

use crate::patience::Patience;
use crate::reads::{drain, read_unstopped};
use crate::socket::Socket;
use crate::writes::write_some;
use gn_links::LinkFault;
use gn_trail::Told;
use std::marker::Model;
use std::net::{Shutdown, TcpStream};
use std::snapshot::Snapshot;
use std::sync::Wait;

/// The handle that a half of a link has of the link's socket, until it gives that up. It is seen as the link's one socket, and
/// whether it wasn't given up.
pub struct Handle {
    socket: Option<Socket>,
    /// The one socket of its link.
    one: Snapshot<Socket>,
    is_missing: bool,
}

impl Drop for Handle {
    fn drop(self) {
        let Handle {
            socket: _,
            one: _,
            is_missing: _,
        } = self;
    }
}

impl Model for Handle {
    ghost use Rattle.std.specs.Prelude.{Bool, is_some};
    ghost use Rattle.gn_waits.specs.declared.socket.Socket.{Socket};

    ghost Value = { Socket × Bool };

    ghost view = { λ h. (h.one.value, is_some h.socket) };
}

impl Handle {
    /// This one, of the link's one socket.
    pub fn new(socket: Socket, one: Snapshot<Socket>) -> Self
        ensures { result ≡ (one.value, true) }
    {
        Handle {
            is_missing: !matches!(socket, Socket::Connected(_)),
            socket: Some(socket),
            one,
        }
    }

    /// Whether the peer never came, or is still called.
    pub fn is_missing(&self) -> bool {
        self.is_missing
    }

    /// The half that is read waits until its peer's call is answered, where that goes on.
    fn meet_read<R: Wait>(&mut self, rt: &R)
        ensures { self.new ≡ self.old }
    {
        let met = match &self.socket {
            Some(Socket::Called(call)) => call.read_half(rt),
            _ => return,
        };
        self.settle(met);
    }

    /// The half that is written waits until its peer's call is answered, where that goes on.
    fn meet_written<R: Wait>(&mut self, rt: &R)
        ensures { self.new ≡ self.old }
    {
        let met = match &self.socket {
            Some(Socket::Called(call)) => call.written_half(rt),
            _ => return,
        };
        self.settle(met);
    }

    /// The peer's call was answered.
    fn settle(&mut self, met: Option<TcpStream>)
        ensures { self.new ≡ (self.old.0, true) }
    {
        self.is_missing = met.is_none();
        self.socket = Some(Socket::of(met));
    }

    /// Waits for bytes where the socket is there, and tells those that came. Of a peer that never came there are none.
    pub fn read<R: Wait>(
        &mut self,
        rt: &R,
        told: &mut Told,
        patience: &mut Patience<'_>,
        buffer: &mut [u8],
    ) -> Result<usize, LinkFault>
        ensures within { IfOk result (λ n. n ≤ length buffer.old) }
        ensures told { told.new ≡ told.old ++ read_by result buffer.new }
        ensures same { self.new ≡ self.old }
    {
        self.meet_read(rt);
        match &mut self.socket {
            Some(Socket::Connected(stream)) => read_unstopped(rt, stream, told, patience, buffer),
            Some(_) => Ok(0),
            None => Err(LinkFault),
        }
    }

    /// Writes where the socket is there, and tells the bytes that this took.
    pub fn write<R: Wait>(
        &mut self,
        rt: &R,
        told: &mut Told,
        piece: &[u8],
    ) -> Result<usize, LinkFault>
        ensures within { IfOk result (λ n. n ≤ length piece.now) }
        ensures told { told.new ≡ told.old ++ written_by result piece.now }
        ensures same { self.new ≡ self.old }
    {
        self.meet_written(rt);
        match &mut self.socket {
            Some(Socket::Connected(stream)) => write_some(rt, stream, told, piece),
            _ => Err(LinkFault),
        }
    }

    /// So many bytes have come, and the next wait has its limit.
    pub fn hear(&self, patience: &mut Patience<'_>, n: usize) {
        if let Some(Socket::Connected(stream)) = &self.socket {
            patience.hear(stream, n);
        }
    }

    /// Reads and drops what the peer still sends, where the socket is there.
    pub fn drain<R: Wait>(&mut self, rt: &R)
        ensures { self.new ≡ self.old }
    {
        if let Some(Socket::Connected(stream)) = &mut self.socket {
            drain(rt, stream);
        }
    }

    /// Shuts the socket so, where it is there.
    pub fn shut(&self, how: Shutdown) {
        if let Some(Socket::Connected(stream)) = &self.socket {
            // it fails where the peer is gone, who needs no word then
            let _ = stream.shutdown(how);
        }
    }

    /// Gives the handle up.
    pub fn let_go(&mut self)
        ensures { self.new ≡ (self.old.0, false) }
    {
        self.socket = None;
    }
}
