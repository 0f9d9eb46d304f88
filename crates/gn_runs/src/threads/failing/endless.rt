//! A link that never ends.

use super::slow::SlowWriter;
use gn_links::{Link, LinkFault, LinkReader, MemoryLink};
use gn_shake::Role;
use std::snapshot::Snapshot;
use std::sync::Wait;

/// Gives a zero byte a read, as often as a u64 counts. What it will give isn't known beforehand; what it gave is.
#[derive(Drop)]
pub(super) struct EndlessReader {
    link: Snapshot<MemoryLink>,
    pieces: u64,
    has_ended: bool,
    is_finished: bool,
}

impl LinkReader for EndlessReader {
    type Origin = MemoryLink;

    ghost use Rattle.std.specs.Prelude.{[], false, true, replicate};

    ghost made_of = { λ r. r.link.value };

    ghost gives = { λ _. record { is_foretold = false; bytes = []; may_fail = false } };

    ghost state = { λ r. record {
      is_known = true;
      bytes = replicate r.pieces 0;
      failures = 0;
      pieces = r.pieces;
      has_ended = r.has_ended;
    } };

    ghost is_finished = { λ r. r.is_finished };

    fn read<R: Wait>(&mut self, _rt: &R, buffer: &mut [u8]) -> Result<usize, LinkFault> {
        let Some(byte) = buffer.first_mut() else {
            return Ok(0);
        };
        let Some(pieces) = self.pieces.checked_add(1) else {
            self.has_ended = true;
            return Ok(0);
        };
        *byte = 0;
        self.pieces = pieces;
        Ok(1)
    }

    fn finish<R: Wait>(&mut self, _rt: &R) {
        self.is_finished = true;
    }
}

/// A link that gives zero bytes without end, in place of those of a memory link, and whose writer is slow.
#[derive(Drop)]
pub(super) struct EndlessLink {
    pub(super) link: MemoryLink,
}

impl Link for EndlessLink {
    ghost use Rattle.std.specs.Prelude.{false};

    type Origin = MemoryLink;

    type Reader = EndlessReader;

    type Writer = SlowWriter;

    ghost role_of = { λ l. l.link.role };

    ghost origin_of = { λ l. l.link };

    ghost may_not_split = { λ _. false };

    fn role(&self) -> Role {
        self.link.role()
    }

    fn split(self) -> Result<(EndlessReader, SlowWriter), LinkFault> {
        let link = Snapshot::of(&self.link);
        let (_, writer) = self.link.split()?;
        let reader = EndlessReader {
            link,
            pieces: 0,
            has_ended: false,
            is_finished: false,
        };
        Ok((reader, SlowWriter::new(writer, false)))
    }
}
