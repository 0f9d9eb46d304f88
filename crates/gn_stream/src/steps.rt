//! The steps of a history whose text is read a line at a time.

ghost use Rattle.std.specs.Prelude.{◌<◌, ◌^◌, IfOk, IfSome};
ghost use Rattle.gn_stream.specs.Reading.{place};
ghost use Rattle.gn_stream.specs.Steps.{IsEndRead, IsStepRead};

use crate::fault::StreamFault;
use crate::lines::LineReader;
use crate::numbered::next_numbered;
use gn_capture::read_history_line;
use gn_io::Source;
use gn_rules::Step;
use gn_text::{CaptureRefusal, Cause};
use std::alloc::Allocator;

/// Nothing, where no line is left after the line `end`.
fn read_end<A: Allocator + Copy, S: Source>(
    lines: &mut LineReader<A>,
    source: &mut S,
) -> Result<(), StreamFault>
    ensures { IsEndRead A result
        (place (S.state source.old) lines.old) (place (S.state source.new) lines.new) }
{
    match next_numbered(lines, source)? {
        Some(number) => Err(StreamFault::Text(CaptureRefusal::at(number, Cause::End))),
        None => Ok(()),
    }
}

/// The next step of a history and the number of its line, which then is the one that was given last; or `None` at the line `end`,
/// which is to be the last one. An `Err` names the first line left that something is wrong with: a line that is no step
/// (`Field`), a missing `end` or something after it (`End`); or the input failed.
pub fn next_step<A: Allocator + Copy, S: Source>(
    alloc: A,
    lines: &mut LineReader<A>,
    source: &mut S,
) -> Result<Option<(u64, Step<A>)>, StreamFault>
    ensures read { IsStepRead result
        (place (S.state source.old) lines.old) (place (S.state source.new) lines.new) }
    ensures numbered { IfOk result (λ found. IfSome found (λ step. step.0 < 2 ^ 64)) }
{
    let Some(number) = next_numbered(lines, source)? else {
        let missing = CaptureRefusal::at(lines.next(), Cause::End);
        return Err(StreamFault::Text(missing));
    };
    match read_history_line(alloc, &(number, lines.line()))? {
        Some(step) => Ok(Some((number, step))),
        None => {
            read_end(lines, source)?;
            Ok(None)
        }
    }
}
