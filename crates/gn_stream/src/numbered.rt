//! The lines that say something.

ghost use Rattle.gn_stream.specs.Numbered.{IsNumberedRead};
ghost use Rattle.gn_stream.specs.Reading.{place};

use crate::lines::LineReader;
use gn_io::{InputFault, Source};
use gn_text::is_skipped;
use std::alloc::Allocator;

/// The number of the next line that isn't skipped, which then is the one that was given last; or `None` where there is none.
pub fn next_numbered<A: Allocator, S: Source>(
    lines: &mut LineReader<A>,
    source: &mut S,
) -> Result<Option<u64>, InputFault>
    ensures { IsNumberedRead result (place (S.state source.old) lines.old) (place (S.state source.new) lines.new) }
{
    while let Some(number) = lines.next_line(source)? {
        if !is_skipped(lines.line()) {
            return Ok(Some(number));
        }
    }
    Ok(None)
}
