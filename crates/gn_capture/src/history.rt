//! What a history's text says.

ghost use Rattle.std.specs.Prelude.{◌≡◌, ◌<◌, None, length, IfErr, IfOk};
ghost use Rattle.gn_text.specs.Faults.{IsRead, IsRefused};
ghost use Rattle.gn_text.specs.Parsed.{line_seen};
ghost use Rattle.gn_text.specs.Lines.{fields_of};
ghost use Rattle.gn_text.specs.Settings.{settings_of};
ghost use Rattle.gn_capture.specs.Steps.{step_parsed};
ghost use Rattle.gn_capture.specs.Histories.{IsNextOf, ended, history_of, history_seen, line_parsed, map_result, steps_left};

use crate::step::read_step;
use gn_rules::{Config, Step};
use gn_text::{
    CaptureRefusal, Cause, NumberedLine, NumberedLines, Text, fields, fields_in, is_word,
    read_header,
};
use std::alloc::{AllocError, Allocator, Global};
use std::marker::Model;

/// So many fields of a line are looked at where they are put; of a line that has more a list is made.
const FEW: usize = 16;

/// The step that a line says. An `Err` is out of memory.
fn step_of_line<A: Allocator + Copy>(alloc: A, line: &[u8]) -> Result<Option<Step<A>>, AllocError>
    ensures { IfOk result (λ found. found ≡ step_parsed (fields_of line.now)) }
{
    let mut places: [&[u8]; FEW] = [&[]; FEW];
    match fields_in(line, &mut places) {
        Some(count) => read_step(alloc, &places[..count]),
        None => read_step(alloc, &fields(alloc, line)?),
    }
}

/// The step of a line, or `None` where it is `end`, for who has the lines one by one.
pub fn read_history_line<A: Allocator + Copy>(
    alloc: A,
    line: &NumberedLine,
) -> Result<Option<Step<A>>, CaptureRefusal>
    ensures { IsRead (λ x. x) result (line_parsed (line_seen line.now)) }
{
    let (number, line) = *line;
    if is_word(line, b"end") {
        return Ok(None);
    }
    match step_of_line(alloc, line)? {
        Some(step) => Ok(Some(step)),
        None => Err(CaptureRefusal::at(number, Cause::Field)),
    }
}

/// The steps of a history's text, one after another. They are read as they are asked for, and nothing is kept of those
/// that were given.
#[derive(Drop)]
pub struct HistorySteps<'a, A: Allocator = Global> {
    alloc: A,
    lines: NumberedLines<'a>,
}

impl<'a, A: Allocator> Model for HistorySteps<'a, A> {
    ghost use Rattle.gn_text.specs.Parsed.{Numbered};

    ghost Value = { Numbered };

    ghost view = { λ s. s.lines };
}

/// Nothing, where no line is left after the line `end`.
fn read_end<A: Allocator>(lines: &mut NumberedLines) -> Result<Option<Step<A>>, CaptureRefusal>
    ensures { IsRead (λ x. x) result (map_result (λ _. None) (ended {A = A} lines.old.lines)) }
{
    match lines.next_line() {
        Ok((number, _)) => Err(CaptureRefusal::at(number, Cause::End)),
        Err(_) => Ok(None),
    }
}

impl<'a, A: Allocator + Copy> HistorySteps<'a, A> {
    ghost use Rattle.std.specs.Prelude.{IfNone, IfSome, OnErr};

    /// The next step, or `None` at the line `end`, which is to be the last one. An `Err` names the first line left that
    /// something is wrong with: a line that is no step (`Field`), a missing `end` or something after it (`End`); or out
    /// of memory. Only where a step is given its line is gone: after `None` and after an `Err` all is as it was.
    pub fn next_step(&mut self) -> Result<Option<Step<A>>, CaptureRefusal>
        ensures next { IsNextOf result (steps_left self.old) (steps_left self.new) }
        ensures fewer { IfOk result (λ found. IfSome found (λ _. length self.new.lines < length self.old.lines)) }
        ensures end { IfOk result (λ found. IfNone found (self.new ≡ self.old)) }
        ensures kept { OnErr result (self.new ≡ self.old) }
    {
        let mut left = self.lines.copy();
        match left.next_line() {
            Ok(line) => match read_history_line(self.alloc, &line)? {
                Some(step) => {
                    self.lines = left;
                    Ok(Some(step))
                }
                None => read_end(&mut left),
            },
            Err(after) => Err(CaptureRefusal::at(after, Cause::End)),
        }
    }
}

/// The configuration that a history's text says, and its steps, which are still to be read. An `Err` names a line before
/// the steps: the first line is the title of no version (`Header`), a bad or missing `config` or `own` line; or out of
/// memory.
pub fn open_history<'a, A: Allocator + Copy>(
    alloc: A,
    text: &'a [u8],
) -> Result<(Config, HistorySteps<'a, A>), CaptureRefusal>
    ensures opened { IfOk result (λ history. history_of {A = A} text.now
        ≡ map_result (λ steps. (settings_of history.0, steps)) (steps_left history.1)) }
    ensures refused { IfErr result (λ refusal. IsRefused refusal (history_of {A = A} text.now)) }
{
    let mut lines = NumberedLines::of(text);
    let config = read_header(alloc, Text::History, &mut lines)?;
    Ok((config, HistorySteps { alloc, lines }))
}

/// The steps that are left of a history, all of them.
fn read_steps<A: Allocator + Copy>(
    alloc: A,
    left: &mut HistorySteps<A>,
) -> Result<Vec<Step<A>, A>, CaptureRefusal>
    ensures { IsRead (λ v. v.items) result (steps_left left.old) }
{
    let mut steps = Vec::new(alloc);
    while let Some(step) = left.next_step()? {
        steps.push(step)?;
    }
    Ok(steps)
}

/// The configuration and the steps that a history's text says. An `Err` names its first line that something is wrong
/// with: the first line is the title of no version (`Header`), a bad or missing `config` or `own` line, a line that is no
/// step (`Field`), a missing `end` or something after it (`End`); or out of memory. Empty lines and comments are
/// skipped, also after `end`. Whether the replies are right isn't looked at.
pub fn read_history<A: Allocator + Copy>(
    alloc: A,
    text: &[u8],
) -> Result<(Config, Vec<Step<A>, A>), CaptureRefusal>
    ensures { IsRead (history_seen (λ v. v.items)) result (history_of text.now) }
{
    let (config, mut left) = open_history(alloc, text)?;
    let steps = read_steps(alloc, &mut left)?;
    Ok((config, steps))
}
