//! The lines of a capture, played on a router one after the other.

ghost use Rattle.std.specs.Prelude.{◌≡◌, ◌++◌, ◌∷◌, [], List, reverse, IfOk, IfErr, MatchOption, OnOk, OnErr};
ghost use Rattle.gn_io.specs.Parts.{AppendsPart, WaitsPart};
ghost use Rattle.gn_io.specs.Streams.{NoWriteFailed};
ghost use Rattle.gn_replay.specs.Links.{AreLinks, LinkState};
ghost use Rattle.gn_replay.specs.ReplayText.{capture_plays, plays};
ghost use Rattle.gn_replay.specs.Playing.{said};
ghost use Rattle.gn_replay.specs.Printed.{begun_of, ending_of};
ghost use Rattle.gn_replay.specs.Runs.{HasPassed, HasPrinted, HasRun, HasWritten, IsNew, IsPlayFault};

use crate::fault::ReplayFault;
use crate::form::Form;
use crate::playing::Play;
use gn_capture::{Capture, Line};
use gn_io::{Block, Sink};
use gn_rules::{FreshRouter, RouterCore};
use std::alloc::Allocator;

/// What playing a capture came to.
#[derive(Drop)]
pub struct Replayed<C> {
    /// The router, after all events.
    pub core: C,
    /// How many events it refused, up to the last u64.
    pub refusals: u64,
}

/// After so many lines the room of those that are gone is given back.
const GIVEN_BACK: usize = 32_768;

/// Gives back the room of lines that were taken, many at a time.
fn give_back<A: Allocator>(lines: &mut Vec<(u64, Line<A>), A>)
    ensures { lines.new.items ≡ lines.old.items }
{
    if lines.len() % GIVEN_BACK == 0 {
        lines.shrink_to_fit();
    }
}

/// Takes the last line.
fn take_last<A: Allocator>(lines: &mut Vec<(u64, Line<A>), A>) -> Option<(u64, Line<A>)>
    ensures { MatchOption result (lines.old.items ≡ [])
        (λ line. lines.old.items ≡ lines.new.items ++ line ∷ []) }
{
    let line = lines.pop()?;
    give_back(lines);
    Some(line)
}

impl<A: Allocator + Copy, C: RouterCore<A>> Play<A, C> {
    /// Empties the text of the line that was written.
    fn clear_out(&mut self)
        ensures { self.new ≡ record self.old { out = [] } }
    {
        self.out.clear();
    }

    /// Plays one line. What is printed of it waits after what waited, and is written once that is a block.
    fn write_line<W: Sink>(
        &mut self,
        line: &Line<A>,
        block: &mut Block<A>,
        sink: &mut W,
    ) -> Result<(), ReplayFault>
        ensures ok { OnOk result ((states : List LinkState) → AreLinks self.old.links states
            → HasWritten self.old self.new (W.state sink.old).written (W.state sink.new).written block.old block.new
            (plays self.old.settings self.old.past states line.now)) }
        ensures err { OnErr result ((states : List LinkState) → AreLinks self.old.links states
            → WaitsPart (W.state sink.old).written (W.state sink.new).written block.new
            (block.old ++ said self.old.form (plays self.old.settings self.old.past states line.now).played)) }
        ensures cause { IfErr result (λ fault. IsPlayFault fault (W.state sink.old) (W.state sink.new)) }
        ensures writes { OnOk result (NoWriteFailed (W.state sink.old) (W.state sink.new)) }
    {
        self.clear_out();
        self.play_line(line)?;
        block.add(&self.out)?;
        block.write_full(sink)?;
        Ok(())
    }

    /// Plays lines in order. What is printed of them is written in blocks after what waits, and what is over waits.
    fn pass_lines<W: Sink>(
        &mut self,
        lines: Vec<(u64, Line<A>), A>,
        block: &mut Block<A>,
        sink: &mut W,
    ) -> Result<(), ReplayFault>
        requires { IsNew self.old }
        ensures ok { OnOk result (HasPassed self.old.form block.old (capture_plays self.old.settings lines.items)
            self.new.past self.new.refusals (W.state sink.old).written (W.state sink.new).written block.new) }
        ensures err { OnErr result (WaitsPart (W.state sink.old).written (W.state sink.new).written block.new
            (block.old ++ said self.old.form (capture_plays self.old.settings lines.items))) }
        ensures settings { OnOk result (self.new.settings ≡ self.old.settings) }
        ensures cause { IfErr result (λ fault. IsPlayFault fault (W.state sink.old) (W.state sink.new)) }
        ensures writes { OnOk result (NoWriteFailed (W.state sink.old) (W.state sink.new)) }
    {
        let mut lines = lines;
        lines.reverse();
        while let Some(numbered) = take_last(&mut lines) {
            let written = self.write_line(&numbered.1, block, sink);
            drop(numbered);
            written?;
        }
        Ok(())
    }

    /// Plays lines in order, and writes what is printed of them in blocks, after what waits and with an ending, what is over
    /// at the end. Where memory runs out, what is printed of all lines before that is written too.
    fn write_lines<W: Sink>(
        &mut self,
        lines: Vec<(u64, Line<A>), A>,
        block: &mut Block<A>,
        ending: &[u8],
        sink: &mut W,
    ) -> Result<(), ReplayFault>
        requires { IsNew self.old }
        ensures ok { OnOk result (HasPrinted self.old.form block.old
            (capture_plays self.old.settings lines.items) ending.now
            self.new.past self.new.refusals (W.state sink.old).written (W.state sink.new).written) }
        ensures err { OnErr result (AppendsPart (W.state sink.old).written (W.state sink.new).written
            (block.old ++ said self.old.form (capture_plays self.old.settings lines.items) ++ ending.now)) }
        ensures settings { OnOk result (self.new.settings ≡ self.old.settings) }
        ensures cause { IfErr result (λ fault. IsPlayFault fault (W.state sink.old) (W.state sink.new)) }
        ensures writes { OnOk result (NoWriteFailed (W.state sink.old) (W.state sink.new)) }
    {
        match self.pass_lines(lines, block, sink) {
            Ok(()) => {
                block.add(ending)?;
                block.write_rest(sink)?;
                Ok(())
            }
            Err(ReplayFault::NoMemory) => {
                block.write_rest(sink)?;
                Err(ReplayFault::NoMemory)
            }
            Err(fault) => Err(fault),
        }
    }
}

/// Makes a router as the capture's first lines say, plays its lines on it, each of which is gone then, and writes what is
/// printed of them in blocks, with what stands before and after them.
pub(crate) fn play_as<A: Allocator + Copy, C: FreshRouter<A> + Drop, W: Sink>(
    alloc: A,
    capture: Capture<A>,
    form: Form,
    sink: &mut W,
) -> Result<Replayed<C>, ReplayFault>
    ensures settings { IfOk result (λ replayed. C.settings replayed.core ≡ capture.config) }
    ensures played { IfOk result (λ replayed. HasPrinted form (begun_of form capture.config)
        (capture_plays capture.config capture.lines.items)
        (ending_of form) (reverse (C.steps replayed.core)) replayed.refusals
        (W.state sink.old).written (W.state sink.new).written) }
    ensures err { OnErr result (AppendsPart (W.state sink.old).written (W.state sink.new).written
        (begun_of form capture.config ++ said form (capture_plays capture.config capture.lines.items)
        ++ ending_of form)) }
    ensures writes { OnOk result (NoWriteFailed (W.state sink.old) (W.state sink.new)) }
    ensures cause { IfErr result (λ fault. IsPlayFault fault (W.state sink.old) (W.state sink.new)) }
{
    let mut block = form.beginning(alloc, &capture.config)?;
    let mut play = Play {
        alloc,
        core: C::make(alloc, &capture.config)?,
        links: Vec::new(alloc),
        out: Vec::new(alloc),
        refusals: 0,
        form,
    };
    play.write_lines(capture.lines, &mut block, form.ending(), sink)?;
    Ok(Replayed {
        core: play.core,
        refusals: play.refusals,
    })
}

/// Makes a router as the capture's first lines say, plays its lines on it, each of which is gone then, and writes what
/// they print in blocks of at least 32,768 bytes, the last one shorter. An `Err` is a write that failed or took nothing,
/// or out of memory: a prefix of that text was written.
pub fn play<A: Allocator + Copy, C: FreshRouter<A> + Drop, W: Sink>(
    alloc: A,
    capture: Capture<A>,
    sink: &mut W,
) -> Result<Replayed<C>, ReplayFault>
    ensures settings { IfOk result (λ replayed. C.settings replayed.core ≡ capture.config) }
    ensures played { IfOk result (λ replayed. HasRun (capture_plays capture.config capture.lines.items)
        (reverse (C.steps replayed.core)) replayed.refusals (W.state sink.old).written (W.state sink.new).written) }
    ensures err { OnErr result (AppendsPart (W.state sink.old).written (W.state sink.new).written
        (capture_plays capture.config capture.lines.items).text) }
    ensures writes { OnOk result (NoWriteFailed (W.state sink.old) (W.state sink.new)) }
    ensures cause { IfErr result (λ fault. IsPlayFault fault (W.state sink.old) (W.state sink.new)) }
{
    play_as::<A, C, W>(alloc, capture, Form::Whole, sink)
}
