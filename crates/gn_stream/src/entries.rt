//! The lines of a history, each with what it says.

ghost use Rattle.std.specs.Prelude.{◌≡◌, ◌<◌, ◌^◌, IfOk, IfSome, OnErr};
ghost use Rattle.gn_stream.specs.Entries.{IsDueRead, IsEntryRead, missing_line};
ghost use Rattle.gn_stream.specs.Reading.{Goes, place};

use crate::fault::StreamFault;
use crate::lines::LineReader;
use gn_capture::read_history_line;
use gn_io::Source;
use gn_numbers::Version;
use gn_rules::{Numbers, Step};
use gn_text::{
    CaptureRefusal, Cause, Text, fields, is_skipped, read_config, read_own, read_version,
};
use std::alloc::{Allocator, Global};

/// Which line of a history comes next, of those that aren't skipped.
#[derive(Clone, Copy)]
pub enum Due {
    /// The title.
    Title,
    /// The `config` line of this version.
    Config(Version),
    /// The `own` line, beside these numbers.
    Own(Numbers),
    /// That of a step, or `end`.
    Step,
    /// None: the line `end` stood there.
    Nothing,
}

/// What a line of a history says.
#[derive(Drop)]
pub enum Entry<A: Allocator = Global> {
    /// Nothing: it is empty or a comment.
    Skipped,
    /// A part of the header, or that the history ends.
    Frame,
    /// A step.
    Step(Step<A>),
}

impl Due {
    /// What is wrong where no line is left; nothing after the line `end`.
    fn missing(self) -> Option<Cause>
        ensures { result ≡ missing_line self }
    {
        match self {
            Due::Title => Some(Cause::Header),
            Due::Config(_) => Some(Cause::Config),
            Due::Own(_) => Some(Cause::Own),
            Due::Step => Some(Cause::End),
            Due::Nothing => None,
        }
    }
}

/// What a line says that isn't skipped, and what is due after it.
fn read_due<A: Allocator + Copy>(
    alloc: A,
    due: Due,
    number: u64,
    line: &[u8],
) -> Result<(Due, Entry<A>), CaptureRefusal>
    ensures { IsDueRead due number line.now result }
{
    match due {
        Due::Title => match read_version(Text::History, line) {
            Some(version) => Ok((Due::Config(version), Entry::Frame)),
            None => Err(CaptureRefusal::at(number, Cause::Header)),
        },
        Due::Config(version) => match read_config(version, &fields(alloc, line)?) {
            Some(numbers) => Ok((Due::Own(numbers), Entry::Frame)),
            None => Err(CaptureRefusal::at(number, Cause::Config)),
        },
        Due::Own(_) => match read_own(alloc, &fields(alloc, line)?)? {
            Some(_) => Ok((Due::Step, Entry::Frame)),
            None => Err(CaptureRefusal::at(number, Cause::Own)),
        },
        Due::Step => match read_history_line(alloc, &(number, line))? {
            Some(step) => Ok((Due::Step, Entry::Step(step))),
            None => Ok((Due::Nothing, Entry::Frame)),
        },
        Due::Nothing => Err(CaptureRefusal::at(number, Cause::End)),
    }
}

/// What the next line of a history says, which then is the one that was given last; or `None` where no line is left after the line
/// `end`. What is due is at first the title. An `Err` names the first line left that something is wrong with, as the readers of a header
/// and of steps do; or the input failed.
pub fn next_entry<A: Allocator + Copy, S: Source>(
    alloc: A,
    due: &mut Due,
    lines: &mut LineReader<A>,
    source: &mut S,
) -> Result<Option<Entry<A>>, StreamFault>
    ensures read { IsEntryRead due.old due.new result
        (place (S.state source.old) lines.old) (place (S.state source.new) lines.new) }
    ensures goes { OnErr result
        (Goes (place (S.state source.old) lines.old) (place (S.state source.new) lines.new)) }
    ensures numbered { IfOk result (λ found. IfSome found (λ _. lines.old.next < 2 ^ 64)) }
{
    let Some(number) = lines.next_line(source)? else {
        return match due.missing() {
            Some(cause) => Err(StreamFault::Text(CaptureRefusal::at(lines.next(), cause))),
            None => Ok(None),
        };
    };
    if is_skipped(lines.line()) {
        return Ok(Some(Entry::Skipped));
    }
    let (after, entry) = read_due(alloc, *due, number, lines.line())?;
    *due = after;
    Ok(Some(entry))
}
