//! A history that is shown as its lines are read.

ghost use Rattle.std.specs.Prelude.{◌≡◌, ◌≢◌, ◌+◌, ◌++◌, ◌∷◌, [], All, Err, List, false, true, IfErr, IfOk, IfSome, OnErr, OnOk};
ghost use Rattle.std.specs.declared.alloc.Global.{Global};
ghost use Rattle.gn_io.specs.Parts.{AppendsPart, LeavesToWrite};
ghost use Rattle.gn_io.specs.Streams.{HasWriteFailed, NoWriteFailed, streams, text_between};
ghost use Rattle.gn_replay.specs.declared.fault.ReplayFault.TheVariants.{Write};
ghost use Rattle.gn_rules.specs.declared.receipt.Step.{Step};
ghost use Rattle.gn_stream.specs.Reading.{Passes, place};
ghost use Rattle.gn_show.specs.Kept.{Fits, placed};
ghost use Rattle.gn_show.specs.Shown.{AppendsShown, HasShowStopped, IsShowOn, line_of};
ghost use Rattle.gn_show.specs.Showing.{AreShown, AreShownOn, IsLinesFault, IsNew, ShowsOn, WritesUnless, due_head, stands};
ghost use Rattle.gn_show.specs.declared.form.View.TheVariants.{Steps};

use crate::clock::{Moment, pass_comment};
use crate::flight::Flight;
use crate::form::Form;
use crate::json_lines::next_json;
use crate::plain::plain_line;
use crate::row_writer::RowWriter;
use crate::rows::next_lines;
use crate::stats::next_index;
use gn_io::{Block, IoFault, Sink, Source};
use gn_replay::ReplayFault;
use gn_rules::Step;
use gn_stream::{Due, Entry, LineReader, next_entry};
use std::alloc::{AllocError, Global};
use std::mem::replace;

/// What lines are made in.
#[derive(Drop)]
pub(crate) struct LineRoom {
    alloc: Global,
    /// What writes rows.
    rows: RowWriter,
    /// The memory of the line before.
    text: Vec<u8>,
}

/// What is kept between two lines of a history.
pub(crate) struct Showing {
    /// Which line comes next.
    due: Due,
    /// The time that a comment gave last, in digits; empty where none did.
    time: Vec<u8>,
    /// What was admitted and isn't routed yet.
    flight: Flight,
    room: LineRoom,
    /// The index of the next step.
    index: u32,
    /// What is shown and waits to be written.
    block: Block,
}

impl Drop for Showing {
    fn drop(self) {
        let Showing {
            due: _,
            time: _,
            flight: _,
            room: _,
            index: _,
            block: _,
        } = self;
    }
}

/// What is shown of a line that says no step: the names of columns, where steps come next.
fn due_head(due: Due, form: Form) -> &'static [u8]
    ensures { result.now ≡ due_head due form }
{
    match (due, form) {
        (Due::Step, Form::Rows) => {
            b"step,t,actor,event,reply,connection,to,kind,id,ttl,hops,length,queued\n"
        }
        _ => b"",
    }
}

/// The lines of the next step.
fn line_of(
    form: Form,
    room: &mut LineRoom,
    flight: &mut Flight,
    moment: Moment<'_>,
    step: Step,
) -> Result<Vec<u8>, AllocError>
    ensures { IfOk result (λ line. (past : List (Step Global)) → Fits form flight.old past
        → (line.items ≡ line_of form past (placed moment.entry) step) × Fits form flight.new (step ∷ past)) }
{
    match form {
        Form::Plain => plain_line(room.alloc, moment.index, &step),
        Form::Json => {
            let text = replace(&mut room.text, Vec::new(room.alloc));
            next_json(room.alloc, text, flight, moment, step)
        }
        Form::Rows => next_lines(room.alloc, &mut room.rows, flight, moment, step),
    }
}

impl Showing {
    /// Nothing is read yet.
    fn new(alloc: Global) -> Self
        ensures { IsNew result }
    {
        Showing {
            due: Due::Title,
            time: Vec::new(alloc),
            flight: Flight::new(alloc),
            room: LineRoom {
                alloc,
                rows: RowWriter::new(alloc),
                text: Vec::new(alloc),
            },
            index: 0,
            block: Block::new(alloc),
        }
    }

    /// Shows the next step. Its lines wait after what waited.
    fn show_step(&mut self, form: Form, step: Step) -> Result<(), AllocError>
        ensures shown { OnOk result ((past : List (Step Global)) → Fits form self.old.flight past
            → (self.new.block ≡ self.old.block ++ line_of form past (stands self.old) step)
            × Fits form self.new.flight (step ∷ past)) }
        ensures index { OnOk result (self.new.index ≡ self.old.index + 1) }
        ensures kept { OnOk result ((self.new.due ≡ self.old.due) × (self.new.time.items ≡ self.old.time.items)) }
        ensures err { OnErr result (self.new.block ≡ self.old.block) }
    {
        let next = next_index(self.index)?;
        let moment = Moment {
            index: self.index,
            time: &self.time,
        };
        let line = line_of(form, &mut self.room, &mut self.flight, moment, step)?;
        self.block.add(&line)?;
        self.room.text = line;
        self.index = next;
        Ok(())
    }

    /// Shows what a line says. It waits after what waited.
    fn show_entry(&mut self, form: Form, line: &[u8], entry: Entry) -> Result<(), AllocError>
        ensures ok { OnOk result (ShowsOn form line.now entry self.old self.new) }
        ensures due { OnOk result (self.new.due ≡ self.old.due) }
        ensures err { OnErr result (self.new.block ≡ self.old.block) }
    {
        match entry {
            Entry::Skipped => pass_comment(&mut self.time, line),
            Entry::Frame => self.block.add(due_head(self.due, form)),
            Entry::Step(step) => self.show_step(form, step),
        }
    }

    /// Writes what waits, where that is a block; all of it, where the next line isn't read yet, since it may be long in coming.
    fn write_due<W: Sink>(&mut self, lines: &LineReader, sink: &mut W) -> Result<(), IoFault>
        ensures ok { OnOk result (LeavesToWrite (W.state sink.old).written (W.state sink.new).written
            self.new.block self.old.block) }
        ensures idle { OnOk result (All (λ b. b ≢ 10) lines.now.held → self.new.block ≡ []) }
        ensures kept { self.new ≡ record self.old { block = self.new.block } }
        ensures err { OnErr result (AppendsPart (W.state sink.old).written (W.state sink.new).written self.old.block) }
        ensures empty { OnErr result (self.new.block ≡ []) }
        ensures cause { OnErr result (HasWriteFailed (W.state sink.old) (W.state sink.new)) }
        ensures unfailed { OnOk result (NoWriteFailed (W.state sink.old) (W.state sink.new)) }
    {
        if lines.has_line() {
            self.block.write_full(sink)
        } else {
            self.block.write_rest(sink)
        }
    }

    /// Shows the lines of a history.
    fn show_lines<S: Source, W: Sink>(
        &mut self,
        form: Form,
        lines: &mut LineReader,
        source: &mut S,
        sink: &mut W,
    ) -> Result<(), ReplayFault>
        requires { IsNew self.old }
        ensures shown { OnOk result (Passes
            (AreShown form (W.state sink.old).written (W.state sink.new).written self.new.block)
            (place (S.state source.old) lines.old) (place (S.state source.new) lines.new)) }
        ensures fault { IfErr result (λ fault. IsLinesFault form fault (W.state sink.old) (W.state sink.new)
            self.new.block (place (S.state source.old) lines.old) (place (S.state source.new) lines.new)) }
        ensures part { AreShownOn form (W.state sink.old).written (W.state sink.new).written self.new.block
            (place (S.state source.old) lines.old) (place (S.state source.new) lines.new) }
        ensures writes { WritesUnless result (W.state sink.old) (W.state sink.new) }
    {
        while let Some(entry) = next_entry(self.room.alloc, &mut self.due, lines, source)? {
            self.show_entry(form, lines.line(), entry)?;
            self.write_due(lines, sink)?;
        }
        Ok(())
    }
}

/// Whether a write failed.
fn is_cut(shown: Result<(), ReplayFault>) -> bool
    ensures cut { result ≡ true → shown ≡ Err Write }
    ensures other { result ≡ false → shown ≡ Err Write → ⊥ }
{
    match shown {
        Err(ReplayFault::Write) => true,
        _ => false,
    }
}

/// Shows the steps of the history that a source gives.
pub(crate) fn show_steps<S: Source, W: Sink>(
    alloc: Global,
    form: Form,
    source: &mut S,
    sink: &mut W,
) -> Result<(), ReplayFault>
    ensures answer { IsShowOn (Steps form)
        (streams (S.state source.old) (S.state source.new) (W.state sink.old) (W.state sink.new)) result }
    ensures written { OnOk result (IfSome (text_between (S.state source.old) (S.state source.new)) (λ text.
        AppendsShown (Steps form) text (W.state sink.old).written (W.state sink.new).written)) }
    ensures stopped { IfErr result (λ fault.
        HasShowStopped (Steps form) fault (text_between (S.state source.old) (S.state source.new))
        (W.state sink.old).written (W.state sink.new).written) }
{
    let mut lines = LineReader::new(alloc);
    let mut showing = Showing::new(alloc);
    let shown = showing.show_lines(form, &mut lines, source, sink);
    if is_cut(shown) {
        return shown;
    }
    showing.block.write_rest(sink)?;
    shown
}
