//! A sink that leaves out the lines with which a text begins.

ghost use Rattle.std.specs.Prelude.{◌≡◌, ◌≤◌, ◌++◌, [], false, is_err, length, IfOk};
ghost use Rattle.gn_io.specs.Counts.{counted, took_none};
ghost use Rattle.gn_comments.specs.Rests.{HasWrittenRest, with_all};
ghost use Rattle.gn_comments.specs.Sinks.{grown, known_by, taken_of};

use crate::commented::Lent;
use crate::naming::Naming;
use crate::plain::note;
use gn_io::{IoFault, Sink};
use gn_trail::Trail;
use std::marker::PhantomData;
use std::sync::atomic::{AtomicU64, Ordering};

/// How many lines of a text stand elsewhere already, once that is known.
#[derive(Debug, Drop)]
pub struct Standing {
    lines: AtomicU64,
}

impl Standing {
    /// It isn't known yet: until it is, all lines are taken for such ones.
    pub fn unknown() -> Self {
        Standing {
            lines: AtomicU64::new(u64::MAX),
        }
    }

    /// So many.
    pub fn set(&self, lines: u64) {
        self.lines.store(lines, Ordering::SeqCst);
    }

    /// How many there are at most.
    fn lines(&self) -> u64 {
        self.lines.load(Ordering::SeqCst)
    }
}

/// Writes a text to the sink that `B` names, but for its first lines, which stand elsewhere. It is seen as that sink would stand with all
/// of the text.
#[derive(Drop)]
pub struct Continued<'a, 't, B: Naming, W: Sink> {
    sink: &'a mut W,
    standing: &'t Standing,
    /// How many lines were left out.
    gone: u64,
    /// Whether all are gone that stand elsewhere, and more was written.
    is_past: bool,
    text: Trail<u8>,
    left: Trail<u8>,
    rest: Trail<u8>,
    of: PhantomData<B>,
    ghost here: { sink.ghost_name ≡ B.sink },
    ghost parted: { text.items ≡ left.items ++ rest.items },
    ghost before: { is_past ≡ false → rest.items ≡ [] },
    ghost written: { known_by B.begun.written (W.state sink.now).written ≡ grown B.begun.written rest.items },
}

/// How many bytes of a piece are of lines that stand elsewhere, where so many do, and so many are gone by now.
fn left_out(stand: u64, gone: &mut u64, piece: &[u8]) -> usize
    ensures { result ≤ length piece.now }
{
    for (at, byte) in piece.iter().enumerate() {
        if *gone >= stand {
            return at;
        }
        if *byte == b'\n' {
            *gone = gone.saturating_add(1);
        }
    }
    piece.len()
}

impl<'a, 't, B: Naming, W: Sink> Continued<'a, 't, B, W> {
    /// No text yet, over the sink that `B` names, without the lines that stand elsewhere.
    pub fn new(lent: Lent<'a, W>, standing: &'t Standing) -> Self
        requires here { lent.sink.ghost_name ≡ B.sink }
        requires begun { W.state lent.sink.now ≡ B.begun }
        ensures { with_all B.begun (W.state result.sink.now) result.text.items ≡ B.begun }
    {
        let Lent { sink } = lent;
        Continued {
            sink,
            standing,
            gone: 0,
            is_past: false,
            text: Trail::new(),
            left: Trail::new(),
            rest: Trail::new(),
            of: PhantomData,
        }
    }

    /// The sink, with all that was written.
    pub fn into_inner(self) -> Lent<'a, W>
        ensures here { result.sink.ghost_name ≡ B.sink }
        ensures same { result.sink.now ≡ self.entry.sink.now }
        ensures rest { HasWrittenRest B.begun (W.state result.sink.now) self.entry.text.items }
    {
        let Continued { sink, .. } = self;
        Lent { sink }
    }

    /// Leaves this out, which stands elsewhere.
    fn leave(&mut self, piece: &[u8])
        requires { self.old.is_past ≡ false }
        ensures text { self.new.text.items ≡ self.old.text.items ++ piece.now }
        ensures same { self.new.sink.now ≡ self.old.sink.now }
    {
        note(&mut self.text, piece);
        note(&mut self.left, piece);
    }

    /// Writes a prefix of the piece.
    fn put(&mut self, piece: &[u8]) -> Result<usize, IoFault>
        ensures bound { IfOk result (λ n. n ≤ length piece.now) }
        ensures text { self.new.text.items ≡ self.old.text.items ++ taken_of result piece.now }
        ensures failures { (W.state self.new.sink.now).failures
            ≡ counted (is_err result) (W.state self.old.sink.now).failures }
        ensures stalls { (W.state self.new.sink.now).stalls
            ≡ counted (took_none result piece.now) (W.state self.old.sink.now).stalls }
    {
        let taken = self.sink.write(piece)?;
        self.is_past = true;
        note(&mut self.text, &piece[..taken]);
        note(&mut self.rest, &piece[..taken]);
        Ok(taken)
    }
}

impl<'a, 't, B: Naming, W: Sink> Sink for Continued<'a, 't, B, W> {
    ghost state = { λ s. with_all B.begun (W.state s.sink.now) s.text.items };

    fn write(&mut self, piece: &[u8]) -> Result<usize, IoFault> {
        if piece.is_empty() {
            return Ok(0);
        }
        if self.is_past {
            return self.put(piece);
        }
        let count = left_out(self.standing.lines(), &mut self.gone, piece);
        if count == 0 {
            return self.put(piece);
        }
        self.leave(&piece[..count]);
        Ok(count)
    }
}
