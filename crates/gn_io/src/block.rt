//! Output that is written in blocks.

ghost use Rattle.std.specs.Prelude.{◌≡◌, ◌<◌, ◌++◌, [], length, OnOk, OnErr};
ghost use Rattle.std.specs.Borrow.{sem};
ghost use Rattle.std.specs.Io.KnownBytes.{Appends};
ghost use Rattle.gn_io.specs.Lent.{lends_bytes};
ghost use Rattle.gn_io.specs.Parts.{AppendsPart, LeavesToWrite, block_size};
ghost use Rattle.gn_io.specs.Streams.{HasWriteFailed, NoWriteFailed};

use crate::fault::IoFault;
use crate::sink::Sink;
use crate::write::write_all;
use std::alloc::{AllocError, Allocator, Global};
use std::marker::Model;

/// The least bytes of a block.
const BLOCK: usize = 32_768;

/// Bytes that wait to be written. It is seen as the list of them.
#[derive(Drop)]
pub struct Block<A: Allocator = Global> {
    waiting: Vec<u8, A>,
}

impl<A: Allocator> Model for Block<A> {
    ghost use Rattle.std.specs.Prelude.{ℕ, List};

    ghost Value = { List ℕ };

    ghost view = { λ b. b.waiting.items };
}

impl<A: Allocator> Block<A> {
    /// A block of which nothing waits yet.
    pub fn new(alloc: A) -> Self
        ensures { result ≡ [] }
    {
        Block {
            waiting: Vec::new(alloc),
        }
    }

    /// The bytes that wait, to be added to.
    pub fn bytes(&mut self) -> &mut Vec<u8, A>
        ensures* back { sem 𝓛 (lends_bytes A.row A.Allocator self.entry result) }
        ensures bytes { result.now.items ≡ self.old }
    {
        &mut self.waiting
    }

    /// Adds bytes to those that wait. An `Err` is out of memory.
    pub fn add(&mut self, bytes: &[u8]) -> Result<(), AllocError>
        ensures ok { OnOk result (self.new ≡ self.old ++ bytes.now) }
        ensures err { OnErr result (self.new ≡ self.old) }
    {
        self.bytes().extend_from_slice(bytes)
    }

    /// Writes all that waits. An `Err` is a write that failed, or one that took none: then what wasn't written is given
    /// up.
    pub fn write_rest<S: Sink>(&mut self, sink: &mut S) -> Result<(), IoFault>
        ensures ok { OnOk result (Appends (S.state sink.old).written (S.state sink.new).written self.old) }
        ensures err { OnErr result (AppendsPart (S.state sink.old).written (S.state sink.new).written self.old) }
        ensures empty { self.new ≡ [] }
        ensures cause { OnErr result (HasWriteFailed (S.state sink.old) (S.state sink.new)) }
        ensures unfailed { OnOk result (NoWriteFailed (S.state sink.old) (S.state sink.new)) }
    {
        let written = write_all(sink, &self.waiting);
        self.waiting.clear();
        written
    }

    /// Writes all that waits where that is 32,768 bytes or more, and nothing else. An `Err` is as in `write_rest`.
    pub fn write_full<S: Sink>(&mut self, sink: &mut S) -> Result<(), IoFault>
        ensures ok { OnOk result
            (LeavesToWrite (S.state sink.old).written (S.state sink.new).written self.new self.old) }
        ensures small { length self.new < block_size }
        ensures err { OnErr result (AppendsPart (S.state sink.old).written (S.state sink.new).written self.old) }
        ensures empty { OnErr result (self.new ≡ []) }
        ensures cause { OnErr result (HasWriteFailed (S.state sink.old) (S.state sink.new)) }
        ensures unfailed { OnOk result (NoWriteFailed (S.state sink.old) (S.state sink.new)) }
    {
        if self.waiting.len() < BLOCK {
            return Ok(());
        }
        self.write_rest(sink)
    }
}
