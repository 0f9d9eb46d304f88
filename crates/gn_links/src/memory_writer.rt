//! The writing half of a link over memory.

ghost use Rattle.std.specs.Prelude.{◌≡◌, ◌+◌, ◌⊎◌, ◌<◌, ◌≤◌, length, true, false, IfOk, OnErr, OnOk};
ghost use Rattle.gn_links.specs.Memory.{half_written, is_failing, new_writing, next_call};
ghost use Rattle.gn_links.specs.Halves.{HasWritten};

use crate::link::{LinkFault, LinkWriter};
use crate::memory::MemoryLink;
use crate::memory_reader::is_failing;
use std::alloc::{Allocator, Global};
use std::marker::Model;
use std::snapshot::Snapshot;
use std::sync::Wait;

/// Collects the bytes that a memory link is given.
pub struct MemoryWriter<A: Allocator + Copy = Global> {
    link: Snapshot<MemoryLink<A>>,
    bytes: Vec<u8, A>,
    fails_from: Option<u32>,
    calls: u32,
    failures: u64,
    is_finished: bool,
}

impl<A: Allocator + Copy> Drop for MemoryWriter<A> {
    fn drop(self) {
        let MemoryWriter {
            link: _,
            bytes: _,
            fails_from: _,
            calls: _,
            failures: _,
            is_finished: _,
        } = self;
    }
}

impl<A: Allocator + Copy> Model for MemoryWriter<A> {
    ghost use Rattle.std.specs.Prelude.{◌≡◌, vec_capacity};
    ghost use Rattle.gn_links.specs.Memory.{MemoryWriting};

    ghost Value = { MemoryWriting };

    ghost view = { λ w. record {
      link = w.link.value;
      bytes = w.bytes.items;
      room = vec_capacity w.bytes;
      calls = w.calls;
      failures = w.failures;
      is_finished = w.is_finished;
    } };

    ghost invariant = { λ w. w.fails_from ≡ w.link.value.write };
}

impl<A: Allocator + Copy> MemoryWriter<A> {
    /// A writer that nothing was written to. It fails from call `fails_from` on.
    pub(crate) fn new(link: Snapshot<MemoryLink<A>>, alloc: A, fails_from: Option<u32>) -> Self
        requires { fails_from ≡ link.value.write }
        ensures { result ≡ new_writing link.value }
    {
        MemoryWriter {
            link,
            bytes: Vec::new(alloc),
            fails_from,
            calls: 0,
            failures: 0,
            is_finished: false,
        }
    }

    /// What was written.
    pub fn bytes(&self) -> &[u8]
        ensures { result.now ≡ self.now.bytes }
    {
        self.bytes.as_slice()
    }

    /// What was written, for keeps.
    pub fn into_bytes(self) -> Vec<u8, A>
        ensures { result.items ≡ self.bytes }
    {
        let MemoryWriter {
            link: _,
            bytes,
            fails_from: _,
            calls: _,
            failures: _,
            is_finished: _,
        } = self;
        bytes
    }
}

impl<A: Allocator + Copy> LinkWriter for MemoryWriter<A> {
    type Origin = MemoryLink<A>;

    ghost made_of = { λ w. w.link };

    ghost state = { half_written };

    /// Takes all of the piece. Fails from the write on that was named, and where memory is refused.
    fn write<R: Wait>(&mut self, _rt: &R, piece: &[u8]) -> Result<usize, LinkFault>
        ensures all { IfOk result (λ n. n ≡ length piece.now) }
        ensures within { IfOk result (λ n. n ≤ length piece.now) }
        ensures state { HasWritten result piece.now (half_written self.old) (half_written self.new) }
        ensures ok { OnOk result (is_failing self.old.link.write (next_call self.old.calls) ≡ false) }
        ensures err { OnErr result ((is_failing self.old.link.write (next_call self.old.calls) ≡ true)
            ⊎ (self.old.room < length self.old.bytes + length piece.now)) }
        ensures calls { self.new.calls ≡ next_call self.old.calls }
        ensures same { (self.new.link ≡ self.old.link) × (self.new.is_finished ≡ self.old.is_finished) }
    {
        self.calls = self.calls.saturating_add(1);
        if is_failing(self.fails_from, self.calls) || self.bytes.extend_from_slice(piece).is_err() {
            self.failures = self.failures.saturating_add(1);
            return Err(LinkFault);
        }
        Ok(piece.len())
    }

    fn finish<R: Wait>(&mut self, _rt: &R) {
        self.is_finished = true;
    }
}
