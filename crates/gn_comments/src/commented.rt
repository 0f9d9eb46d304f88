//! A sink that puts comments into the text that is written to it.

ghost use Rattle.std.specs.Prelude.{◌≡◌, ◌⊎◌, ◌++◌, ◌≤◌, ℕ, List, Ok, true, drop, is_err, length, min, IfOk};
ghost use Rattle.gn_io.specs.Counts.{counted, last_count, took_none};
ghost use Rattle.gn_io.specs.Streams.{HasWriteFailed};
ghost use Rattle.gn_comments.specs.Comments.{bare, place_behind};
ghost use Rattle.gn_comments.specs.Comments.Place.{start};
ghost use Rattle.gn_comments.specs.Sinks.{HasWrittenBoth, grown, has_stalled, known_by, taken_of, without_comments};

use crate::commenter::Commenter;
use crate::comments::Comments;
use crate::naming::Naming;
use crate::plain::note;
use crate::put::put;
use gn_io::{IoFault, Sink};
use gn_trail::Trail;
use std::alloc::Global;
use std::marker::PhantomData;

/// Writes a text to the sink that `B` names, and comments before its lines, as they are due. It is seen as that sink would stand without
/// them.
#[derive(Drop)]
pub struct Commented<'a, B: Naming, W: Sink, C: Commenter> {
    sink: &'a mut W,
    commenter: C,
    comments: Comments,
    /// How many bytes of the comments were written.
    done: usize,
    /// Whether a line begins next.
    begins: bool,
    /// What was written of the text.
    text: Trail<u8>,
    /// What was written of both.
    both: Trail<u8>,
    of: PhantomData<B>,
    ghost here: { sink.ghost_name ≡ B.sink },
    ghost within: { done ≤ length comments.bytes.items },
    ghost line: { begins ≡ true → place_behind start text.items ≡ start },
    ghost place: { place_behind start (both.items ++ drop done comments.bytes.items) ≡ place_behind start text.items },
    ghost same: { bare start (both.items ++ drop done comments.bytes.items) ≡ bare start text.items },
    ghost written: { known_by B.begun.written (W.state sink.now).written ≡ grown B.begun.written both.items },
    ghost failures: { min B.begun.failures last_count ≤ (W.state sink.now).failures },
    ghost stalls: { min B.begun.stalls last_count ≤ (W.state sink.now).stalls },
    ghost whole: { (HasWriteFailed B.begun (W.state sink.now) → ⊥) → done ≡ length comments.bytes.items },
}

/// A sink that is lent for a while.
#[derive(Drop)]
pub struct Lent<'a, W> {
    pub sink: &'a mut W,
}

/// Asks for comments where a line begins, and all of those before were written.
fn ask<C: Commenter>(commenter: &mut C, begins: bool, comments: &mut Comments, done: &mut usize)
    ensures { ((comments.new.bytes.items ≡ comments.old.bytes.items) × (done.new ≡ done.old))
        ⊎ ((begins ≡ true) × (done.old ≡ length comments.old.bytes.items) × (done.new ≡ 0)) }
{
    if begins && *done == comments.as_bytes().len() {
        comments.clear();
        *done = 0;
        commenter.comment(comments);
    }
}

/// Whether a line begins behind a text and these bytes, where it is said whether one begins behind the text.
fn begins_behind(begins: bool, bytes: &[u8]) -> bool
    ensures { (text : List ℕ) → (begins ≡ true → place_behind start text ≡ start)
        → result ≡ true → place_behind start (text ++ bytes.now) ≡ start }
{
    if bytes.is_empty() {
        begins
    } else {
        bytes[bytes.len() - 1] == b'\n'
    }
}

impl<'a, B: Naming, W: Sink, C: Commenter> Commented<'a, B, W, C> {
    /// No text yet, over the sink that `B` names.
    pub fn new(alloc: Global, lent: Lent<'a, W>, commenter: C) -> Self
        requires here { lent.sink.ghost_name ≡ B.sink }
        requires begun { W.state lent.sink.now ≡ B.begun }
        ensures { without_comments B.begun (W.state result.sink.now) result.text.items ≡ B.begun }
    {
        let Lent { sink } = lent;
        Commented {
            sink,
            commenter,
            comments: Comments::new(alloc),
            done: 0,
            begins: true,
            text: Trail::new(),
            both: Trail::new(),
            of: PhantomData,
        }
    }

    /// Writes the comments that are due before what comes next. Whether all were written; if not, a write took none.
    fn put_comments(&mut self) -> Result<bool, IoFault>
        ensures text { self.new.text.items ≡ self.old.text.items }
        ensures all { result ≡ Ok true → self.new.done ≡ length self.new.comments.bytes.items }
        ensures failures { (W.state self.new.sink.now).failures
            ≡ counted (is_err result) (W.state self.old.sink.now).failures }
        ensures stalls { (W.state self.new.sink.now).stalls
            ≡ counted (has_stalled result) (W.state self.old.sink.now).stalls }
    {
        ask(
            &mut self.commenter,
            self.begins,
            &mut self.comments,
            &mut self.done,
        );
        let waiting = &self.comments.as_bytes()[self.done..];
        let mut count = 0;
        let put = put(self.sink, waiting, &mut count);
        note(&mut self.both, &waiting[..count]);
        self.done += count;
        put
    }

    /// Writes a prefix of the piece, where no comments wait.
    fn put_text(&mut self, piece: &[u8]) -> Result<usize, IoFault>
        requires { self.old.done ≡ length self.old.comments.bytes.items }
        ensures bound { IfOk result (λ n. n ≤ length piece.now) }
        ensures text { self.new.text.items ≡ self.old.text.items ++ taken_of result piece.now }
        ensures failures { (W.state self.new.sink.now).failures
            ≡ counted (is_err result) (W.state self.old.sink.now).failures }
        ensures stalls { (W.state self.new.sink.now).stalls
            ≡ counted (took_none result piece.now) (W.state self.old.sink.now).stalls }
    {
        let taken = self.sink.write(piece)?;
        note(&mut self.text, &piece[..taken]);
        note(&mut self.both, &piece[..taken]);
        self.begins = begins_behind(self.begins, &piece[..taken]);
        Ok(taken)
    }
}

impl<'a, B: Naming, W: Sink, C: Commenter + Drop> Commented<'a, B, W, C> {
    /// The sink, with all that was written.
    pub fn into_inner(self) -> Lent<'a, W>
        ensures here { result.sink.ghost_name ≡ B.sink }
        ensures same { result.sink.now ≡ self.entry.sink.now }
        ensures both { HasWrittenBoth B.begun (W.state result.sink.now) self.entry.text.items }
    {
        let Commented { sink, .. } = self;
        Lent { sink }
    }
}

impl<'a, B: Naming, W: Sink, C: Commenter> Sink for Commented<'a, B, W, C> {
    ghost state = { λ s. without_comments B.begun (W.state s.sink.now) s.text.items };

    fn write(&mut self, piece: &[u8]) -> Result<usize, IoFault> {
        if piece.is_empty() {
            return Ok(0);
        }
        if !self.put_comments()? {
            return Ok(0);
        }
        self.put_text(piece)
    }
}
