//! The reading half of a link over memory.

ghost use Rattle.std.specs.Prelude.{◌≡◌, ◌++◌, ◌<◌, ◌≤◌, length, take, true, IfOk, OnErr, is_err, is_some};
ghost use Rattle.gn_links.specs.Halves.{HasRead, IsReadOf};
ghost use Rattle.gn_links.specs.Memory.{IsReaderOf, half_read, is_failing, new_reading, next_call, source_of};

use crate::link::{LinkFault, LinkReader};
use crate::memory::MemoryLink;
use std::alloc::{Allocator, Global};
use std::marker::Model;
use std::snapshot::Snapshot;
use std::sync::Wait;

/// Gives the bytes of a memory link, in order.
pub struct MemoryReader<A: Allocator + Copy = Global> {
    link: Snapshot<MemoryLink<A>>,
    bytes: Vec<u8, A>,
    given: usize,
    piece: usize,
    fails_from: Option<u32>,
    calls: u32,
    failures: u64,
    pieces: u64,
    has_ended: bool,
    is_finished: bool,
}

impl<A: Allocator + Copy> Drop for MemoryReader<A> {
    fn drop(self) {
        let MemoryReader {
            link: _,
            bytes: _,
            given: _,
            piece: _,
            fails_from: _,
            calls: _,
            failures: _,
            pieces: _,
            has_ended: _,
            is_finished: _,
        } = self;
    }
}

impl<A: Allocator + Copy> Model for MemoryReader<A> {
    ghost use Rattle.gn_links.specs.Memory.{IsGiving, IsReaderOf, MemoryReading};

    ghost Value = { MemoryReading };

    ghost view = { λ r. record {
      link = r.link.value;
      given = r.given;
      calls = r.calls;
      failures = r.failures;
      pieces = r.pieces;
      has_ended = r.has_ended;
      is_finished = r.is_finished;
    } };

    ghost invariant = { λ r. IsGiving r.bytes.items r.given r.has_ended
        × IsReaderOf r.link.value r.bytes.items r.piece r.fails_from };
}

impl<A: Allocator + Copy> MemoryReader<A> {
    /// A reader that has given nothing. It gives at most `piece` bytes a call, and fails from call `fails_from` on.
    pub(crate) fn new(
        link: Snapshot<MemoryLink<A>>,
        bytes: Vec<u8, A>,
        piece: usize,
        fails_from: Option<u32>,
    ) -> Self
        requires { IsReaderOf link.value bytes.items piece fails_from }
        ensures { result ≡ new_reading link.value }
    {
        MemoryReader {
            link,
            bytes,
            given: 0,
            piece,
            fails_from,
            calls: 0,
            failures: 0,
            pieces: 0,
            has_ended: false,
            is_finished: false,
        }
    }

    /// Gives the next bytes, which are none only where none are left or the buffer is empty.
    fn give(&mut self, buffer: &mut [u8]) -> usize
        ensures within { (result ≤ length buffer.old) × (result ≤ self.old.link.piece) }
        ensures bytes { take self.new.given self.new.link.bytes
            ≡ take self.old.given self.old.link.bytes ++ take result buffer.new }
        ensures prefix { IsReadOf self.new.link.bytes (take self.new.given self.new.link.bytes) self.new.has_ended }
        ensures end { result ≡ 0 → 0 < length buffer.old → self.old.given ≡ length self.old.link.bytes }
        ensures same { self.new ≡ record self.old { given = self.new.given } }
    {
        let from = self.given;
        let n = buffer.len().min(self.piece).min(self.bytes.len() - from);
        copy_to(buffer, &self.bytes[from..from + n]);
        self.given = from + n;
        n
    }
}

impl<A: Allocator + Copy> LinkReader for MemoryReader<A> {
    type Origin = MemoryLink<A>;

    ghost made_of = { λ r. r.link };

    ghost gives = { source_of };

    ghost state = { half_read };

    ghost is_finished = { λ r. r.is_finished };

    fn read<R: Wait>(&mut self, _rt: &R, buffer: &mut [u8]) -> Result<usize, LinkFault>
        ensures within { IfOk result (λ n. (n ≤ length buffer.old) × (n ≤ self.old.link.piece)) }
        ensures state { HasRead result buffer.new (half_read self.old) (half_read self.new) }
        ensures prefix { IsReadOf self.new.link.bytes (take self.new.given self.new.link.bytes) self.new.has_ended }
        ensures end { IfOk result (λ n. n ≡ 0 → 0 < length buffer.old
            → self.old.given ≡ length self.old.link.bytes) }
        ensures fails { is_err result ≡ is_failing self.old.link.read (next_call self.old.calls) }
        ensures allowed { OnErr result (is_some self.new.link.read ≡ true) }
        ensures calls { self.new.calls ≡ next_call self.old.calls }
        ensures same { (self.new.link ≡ self.old.link) × (self.new.is_finished ≡ self.old.is_finished) }
    {
        self.calls = self.calls.saturating_add(1);
        if is_failing(self.fails_from, self.calls) {
            self.failures = self.failures.saturating_add(1);
            return Err(LinkFault);
        }
        let n = self.give(buffer);
        if n > 0 {
            self.pieces = self.pieces.saturating_add(1);
        } else if !buffer.is_empty() {
            self.has_ended = true;
        }
        Ok(n)
    }

    /// What was read stays, and more can be read.
    fn finish<R: Wait>(&mut self, _rt: &R)
        ensures same { self.new ≡ record self.old { is_finished = true } }
    {
        self.is_finished = true;
    }
}

/// Whether a call of this number fails.
pub(crate) fn is_failing(fails_from: Option<u32>, call: u32) -> bool
    ensures { result ≡ is_failing fails_from call }
{
    match fails_from {
        None => false,
        Some(from) => from <= call,
    }
}

/// Copies a piece to the beginning of a buffer.
fn copy_to(buffer: &mut [u8], piece: &[u8])
    requires { length piece.now ≤ length buffer.old }
    ensures { take (length piece.now) buffer.new ≡ piece.now }
{
    buffer[..piece.len()].copy_from_slice(piece);
}
