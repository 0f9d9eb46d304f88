//! A link whose writer takes one byte at a time, or none at first.

ghost use Rattle.std.specs.Prelude.{◌≡◌, false, take};

use gn_links::{Link, LinkFault, LinkWriter, MemoryLink, MemoryReader, MemoryWriter};
use gn_shake::Role;
use std::sync::Wait;

/// Passes the first byte of each piece on to a memory link's writer. One that stalls takes nothing of its first piece.
#[derive(Drop)]
pub(super) struct SlowWriter {
    writer: MemoryWriter,
    stalls: bool,
    is_stuck: bool,
}

impl SlowWriter {
    /// Passes on to this writer what it is given, one byte of each piece.
    pub(super) fn new(writer: MemoryWriter, stalls: bool) -> Self
        ensures { result ≡ record { writer = writer; stalls = stalls; is_stuck = false } }
    {
        SlowWriter {
            writer,
            stalls,
            is_stuck: false,
        }
    }

    /// What was written.
    pub(super) fn bytes(&self) -> &[u8] {
        self.writer.bytes()
    }
}

/// The first byte of a piece, where it has one.
fn first_of(piece: &[u8]) -> &[u8]
    ensures { result.now ≡ take 1 piece.now }
{
    &piece[..piece.len().min(1)]
}

impl LinkWriter for SlowWriter {
    type Origin = MemoryLink;

    ghost use Rattle.std.specs.Prelude.{true};

    ghost made_of = { λ w. w.writer.link };

    ghost state = { λ w. record {
      is_known = true;
      bytes = w.writer.bytes;
      failures = w.writer.failures;
      is_stuck = w.is_stuck;
      is_finished = w.writer.is_finished;
    } };

    fn write<R: Wait>(&mut self, rt: &R, piece: &[u8]) -> Result<usize, LinkFault> {
        if self.stalls {
            self.stalls = false;
            self.is_stuck |= !piece.is_empty();
            return Ok(0);
        }
        let answer = self.writer.write(rt, first_of(piece));
        if let Ok(0) = answer {
            self.is_stuck |= !piece.is_empty();
        }
        answer
    }

    fn finish<R: Wait>(&mut self, rt: &R) {
        self.writer.finish(rt);
    }
}

/// A memory link whose writer takes one byte at a time; and nothing at first, where it stalls.
#[derive(Drop)]
pub(super) struct SlowLink {
    pub(super) link: MemoryLink,
    pub(super) stalls: bool,
}

impl Link for SlowLink {
    type Origin = MemoryLink;

    type Reader = MemoryReader;

    type Writer = SlowWriter;

    ghost role_of = { λ l. l.link.role };

    ghost origin_of = { λ l. l.link };

    ghost may_not_split = { λ _. false };

    fn role(&self) -> Role {
        self.link.role()
    }

    fn split(self) -> Result<(MemoryReader, SlowWriter), LinkFault> {
        let SlowLink { link, stalls } = self;
        let (reader, writer) = link.split()?;
        Ok((reader, SlowWriter::new(writer, stalls)))
    }
}
