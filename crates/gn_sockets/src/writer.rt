//! The half of a link over TCP that is written.

ghost use Rattle.std.specs.Prelude.{◌≡◌, ◌≤◌, ◌++◌, ◌||◌, [], false, is_err, not, length, IfOk};
ghost use Rattle.gn_links.specs.Halves.{counted, is_stall, written_by};
ghost use Rattle.gn_sockets.specs.TcpHalves.{half_written};

use crate::origin::TcpOrigin;
use gn_links::{LinkFault, LinkWriter};
use gn_trail::Told;
use gn_waits::{Handle, Socket};
use std::marker::Model;
use std::net::Shutdown;
use std::sync::Wait;

/// Writes to a socket. Where it is finished it shuts both directions, or that of a peer to which something is still owed alone,
/// and gives its handle of the socket up: once both halves have, the peer is let go.
pub struct TcpWriter {
    handle: Handle,
    origin: TcpOrigin,
    /// Whether it shuts its own direction alone where the peer may not have read all yet.
    lingers: bool,
    has_written: bool,
    failures: u64,
    is_stuck: bool,
    /// The bytes that its writes took.
    told: Told,
}

impl Drop for TcpWriter {
    fn drop(self) {
        let TcpWriter {
            handle: _,
            origin: _,
            lingers: _,
            has_written: _,
            failures: _,
            is_stuck: _,
            told: _,
        } = self;
    }
}

impl Model for TcpWriter {
    ghost use Rattle.std.specs.Prelude.{not};
    ghost use Rattle.gn_sockets.specs.TcpHalves.{TcpWriting};

    ghost Value = { TcpWriting };

    ghost view = { λ w. record {
      origin = w.origin;
      socket = w.handle.0;
      is_finished = not w.handle.1;
      bytes = w.told;
      failures = w.failures;
      is_stuck = w.is_stuck;
    } };
}

impl TcpWriter {
    /// One that writes to this handle of its link's socket.
    pub(crate) fn new(handle: Handle, origin: TcpOrigin, lingers: bool) -> Self
        ensures { result ≡ record {
          origin = origin;
          socket = handle.0;
          is_finished = not handle.1;
          bytes = [];
          failures = 0;
          is_stuck = false;
        } }
    {
        TcpWriter {
            handle,
            origin,
            lingers,
            has_written: false,
            failures: 0,
            is_stuck: false,
            told: Told::new(),
        }
    }

    /// Writes where its socket is there, and tells the bytes that this took.
    fn take<R: Wait>(&mut self, rt: &R, piece: &[u8]) -> Result<usize, LinkFault>
        ensures within { IfOk result (λ n. n ≤ length piece.now) }
        ensures told { self.new.bytes ≡ self.old.bytes ++ written_by result piece.now }
        ensures rest { self.new ≡ record self.old { bytes = self.new.bytes } }
    {
        self.handle.write(rt, &mut self.told, piece)
    }

    /// Counts what a write of so many bytes answered.
    fn count(&mut self, answer: Result<usize, LinkFault>, bytes: usize)
        ensures { self.new ≡ record self.old {
          failures = counted (is_err answer) self.old.failures;
          is_stuck = self.old.is_stuck || is_stall answer bytes;
        } }
    {
        match answer {
            Ok(n) => {
                self.has_written = true;
                if n == 0 && bytes > 0 {
                    self.is_stuck = true;
                }
            }
            Err(_) => self.failures = self.failures.saturating_add(1),
        }
    }

    /// How the socket is shut at the end.
    fn ending(&self) -> Shutdown {
        let is_owed = self.has_written && self.failures == 0 && !self.is_stuck;
        if self.lingers && is_owed {
            Shutdown::Write
        } else {
            Shutdown::Both
        }
    }
}

impl LinkWriter for TcpWriter {
    type Origin = (TcpOrigin, Socket);

    ghost made_of = { λ w. (w.origin, w.socket) };

    ghost state = { half_written };

    /// Fails too where it waits for longer than the link's time limit, where the peer never came, and where it was finished.
    fn write<R: Wait>(&mut self, rt: &R, piece: &[u8]) -> Result<usize, LinkFault> {
        let answer = self.take(rt, piece);
        self.count(answer, piece.len());
        answer
    }

    /// Says to the peer that no more bytes come. Where all was written, and something was, what the peer may still send is
    /// waited for, so that the system doesn't throw away what it hasn't read; else that is refused from now on, and the reader's
    /// wait for it ends.
    fn finish<R: Wait>(&mut self, _rt: &R) {
        self.handle.shut(self.ending());
        self.handle.let_go();
    }
}
