//! A link over memory.

ghost use Rattle.std.specs.Prelude.{◌≡◌, ◌<◌, ◌≤◌, None, false, IfOk, IsOk};
ghost use Rattle.gn_links.specs.Memory.{half_read, half_written, new_reading, new_writing};
ghost use Rattle.gn_links.specs.Halves.{IsNewReader, IsNewWriter};

use crate::link::{Link, LinkFault};
use crate::memory_reader::MemoryReader;
use crate::memory_writer::MemoryWriter;
use gn_shake::Role;
use std::alloc::{Allocator, Global};
use std::marker::Model;
use std::snapshot::Snapshot;

/// A link whose reader gives bytes that were laid down beforehand, and whose writer collects what it is given.
pub struct MemoryLink<A: Allocator + Copy = Global> {
    role: Role,
    bytes: Vec<u8, A>,
    piece: usize,
    read: Option<u32>,
    write: Option<u32>,
}

impl<A: Allocator + Copy> Drop for MemoryLink<A> {
    fn drop(self) {
        let MemoryLink {
            role: _,
            bytes: _,
            piece: _,
            read: _,
            write: _,
        } = self;
    }
}

impl<A: Allocator + Copy> Model for MemoryLink<A> {
    ghost use Rattle.std.specs.Prelude.{◌<◌, ◌≤◌};
    ghost use Rattle.gn_links.specs.Memory.{Memory};

    ghost Value = { Memory };

    ghost view = { λ l. record {
      role = l.role;
      bytes = l.bytes.items;
      piece = l.piece;
      read = l.read;
      write = l.write;
    } };

    ghost invariant = { λ l. (0 < l.piece) × (l.piece ≤ 4096) };
}

impl<A: Allocator + Copy> MemoryLink<A> {
    /// Its reader gives these bytes, at most `piece` at a time. It doesn't fail.
    pub fn new(role: Role, bytes: Vec<u8, A>, piece: usize) -> Self
        requires { (0 < piece) × (piece ≤ 4096) }
        ensures { result ≡ record { role = role; bytes = bytes.items; piece = piece; read = None; write = None } }
    {
        MemoryLink {
            role,
            bytes,
            piece,
            read: None,
            write: None,
        }
    }

    /// The reads, and the writes, of these numbers and above fail, counted from 1; 0 is as 1. The counts stay at the last
    /// u32.
    pub fn failing(self, read: Option<u32>, write: Option<u32>) -> Self
        ensures { result ≡ record self { read = read; write = write } }
    {
        let MemoryLink {
            role,
            bytes,
            piece,
            read: _,
            write: _,
        } = self;
        MemoryLink {
            role,
            bytes,
            piece,
            read,
            write,
        }
    }
}

impl<A: Allocator + Copy> Link for MemoryLink<A> {
    type Origin = MemoryLink<A>;

    type Reader = MemoryReader<A>;

    type Writer = MemoryWriter<A>;

    ghost role_of = { λ l. l.role };

    ghost origin_of = { λ l. l };

    ghost may_not_split = { λ _. false };

    fn role(&self) -> Role {
        self.role
    }

    /// Doesn't fail, and takes no memory.
    fn split(self) -> Result<(MemoryReader<A>, MemoryWriter<A>), LinkFault>
        ensures ok { IsOk result }
        ensures halves { IfOk result (λ h. (h.0 ≡ new_reading self) × (h.1 ≡ new_writing self)) }
        ensures reader { IfOk result (λ h. IsNewReader (half_read h.0)) }
        ensures writer { IfOk result (λ h. IsNewWriter (half_written h.1)) }
        ensures made { IfOk result (λ h. (h.0.link ≡ self) × (h.1.link ≡ self)) }
    {
        let (reading, writing) = (Snapshot::of(&self), Snapshot::of(&self));
        let alloc = *self.bytes.allocator();
        let MemoryLink {
            role: _,
            bytes,
            piece,
            read,
            write,
        } = self;
        Ok((
            MemoryReader::new(reading, bytes, piece, read),
            MemoryWriter::new(writing, alloc, write),
        ))
    }
}
