//! The half of a link over TCP that is read.

ghost use Rattle.std.specs.Prelude.{◌≡◌, ◌≤◌, ◌++◌, ◌||◌, [], false, is_err, not, true, length, IfOk};
ghost use Rattle.gn_links.specs.Halves.{counted, gave_bytes, is_end, read_by};
ghost use Rattle.gn_sockets.specs.TcpHalves.{half_read};

use crate::origin::TcpOrigin;
use gn_links::{LinkFault, LinkReader};
use gn_trail::Told;
use gn_waits::{Handle, Patience, Socket};
use std::marker::Model;
use std::net::SocketAddr;
use std::sync::Wait;

/// Reads from a socket. It gives its handle of the socket up at the end of the bytes, at a read that fails, and where it is
/// finished: once both halves have, the peer is let go.
pub struct TcpReader<'s> {
    handle: Handle,
    peer: SocketAddr,
    origin: TcpOrigin,
    patience: Patience<'s>,
    failures: u64,
    pieces: u64,
    has_ended: bool,
    /// The bytes that its reads gave.
    told: Told,
}

impl<'s> Drop for TcpReader<'s> {
    fn drop(self) {
        let TcpReader {
            handle: _,
            peer: _,
            origin: _,
            patience: _,
            failures: _,
            pieces: _,
            has_ended: _,
            told: _,
        } = self;
    }
}

impl<'s> Model for TcpReader<'s> {
    ghost use Rattle.gn_sockets.specs.TcpHalves.{TcpReading};

    ghost Value = { TcpReading };

    ghost view = { λ r. record {
      origin = r.origin;
      socket = r.handle.0;
      is_open = r.handle.1;
      bytes = r.told;
      failures = r.failures;
      pieces = r.pieces;
      has_ended = r.has_ended;
    } };
}

impl<'s> TcpReader<'s> {
    /// A reader that has given nothing. One whose call isn't answered yet waits for its socket at the first read.
    pub(crate) fn new(
        handle: Handle,
        peer: SocketAddr,
        origin: TcpOrigin,
        patience: Patience<'s>,
    ) -> Self
        ensures { result ≡ record {
          origin = origin;
          socket = handle.0;
          is_open = handle.1;
          bytes = [];
          failures = 0;
          pieces = 0;
          has_ended = false;
        } }
    {
        TcpReader {
            handle,
            peer,
            origin,
            patience,
            failures: 0,
            pieces: 0,
            has_ended: false,
            told: Told::new(),
        }
    }

    /// The peer's address, also once the peer was let go. Of a peer that never came it is the called one, or 0.0.0.0:0.
    pub fn peer(&self) -> SocketAddr {
        self.peer
    }

    /// Whether the link's peer never came: the run was stopped before. So it is too of one that is still called.
    pub fn is_missing(&self) -> bool {
        self.handle.is_missing()
    }

    /// The bytes that its reads gave.
    pub fn told(&self) -> &Told
        ensures { result.now ≡ self.now.bytes }
    {
        &self.told
    }

    /// Waits for bytes where its socket is there, and tells those that came.
    fn give<R: Wait>(&mut self, rt: &R, buffer: &mut [u8]) -> Result<usize, LinkFault>
        ensures within { IfOk result (λ n. n ≤ length buffer.old) }
        ensures told { self.new.bytes ≡ self.old.bytes ++ read_by result buffer.new }
        ensures rest { self.new ≡ record self.old { bytes = self.new.bytes } }
    {
        if self.has_ended {
            return Ok(0);
        }
        self.handle
            .read(rt, &mut self.told, &mut self.patience, buffer)
    }

    /// Counts what a read into so much room answered, and tells the brake. It leaves the peer where the bytes ended, and gives its
    /// handle up where the read failed.
    fn count(&mut self, answer: Result<usize, LinkFault>, room: usize)
        ensures { self.new ≡ record self.old {
          is_open = self.new.is_open;
          failures = counted (is_err answer) self.old.failures;
          pieces = counted (gave_bytes answer) self.old.pieces;
          has_ended = self.old.has_ended || is_end answer room;
        } }
    {
        self.patience.ways.tell_brake(answer.unwrap_or(0));
        match answer {
            Ok(n) if n > 0 => {
                self.pieces = self.pieces.saturating_add(1);
                self.handle.hear(&mut self.patience, n);
            }
            Ok(_) if room > 0 => {
                self.has_ended = true;
                self.leave();
            }
            Ok(_) => {}
            Err(_) => {
                self.failures = self.failures.saturating_add(1);
                self.handle.let_go();
            }
        }
    }

    /// The bytes have ended. A stop ends them, but not the peer: where the link lingers the socket is kept until it is finished.
    fn leave(&mut self)
        ensures { self.new ≡ record self.old { is_open = self.new.is_open } }
    {
        if !self.patience.ways.holds_on() {
            self.handle.let_go();
        }
    }
}

impl<'s> LinkReader for TcpReader<'s> {
    type Origin = (TcpOrigin, Socket);

    ghost made_of = { λ r. (r.origin, r.socket) };

    ghost gives = { λ _. record { is_foretold = false; bytes = []; may_fail = true } };

    ghost state = { half_read };

    /// Also where its bytes ended or a read failed: it has given its handle up.
    ghost is_finished = { λ r. not r.is_open };

    /// Gives no bytes once the link's stop is set, and where the peer never came. Fails too where it waits for longer than the
    /// link's time limit allows, and where it failed before or was finished.
    fn read<R: Wait>(&mut self, rt: &R, buffer: &mut [u8]) -> Result<usize, LinkFault> {
        let answer = self.give(rt, buffer);
        self.count(answer, buffer.len());
        answer
    }

    /// Where the link lingers, what the peer still sends is read and dropped first, until it ends or somebody shuts the socket.
    /// What it sends later, once the writer is finished too, is refused by the system.
    fn finish<R: Wait>(&mut self, rt: &R) {
        if self.patience.ways.lingers {
            self.handle.drain(rt);
        }
        self.handle.let_go();
    }
}
