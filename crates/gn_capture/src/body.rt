//! The lines of a capture, one after another.

ghost use Rattle.std.specs.Prelude.{◌≡◌, ◌<◌, ◌^◌, ◌-◌};
ghost use Rattle.gn_capture.specs.CaptureLines.{links_after};
ghost use Rattle.gn_capture.specs.Captures.{lines_from};
ghost use Rattle.gn_text.specs.Faults.{IsRead};

use crate::line::Line;
use crate::read_line::read_numbered;
use gn_text::{CaptureRefusal, NumberedLines};
use std::alloc::Allocator;

/// How many links there are after a line.
fn links_after<A: Allocator>(links: u64, line: &Line<A>) -> u64
    requires { links < 2 ^ 64 - 1 }
    ensures { result ≡ links_after links line.now }
{
    match line {
        Line::Join | Line::Greeted => links + 1,
        _ => links,
    }
}

/// What the lines that are left of a text say, each with its number, in a version with the line `route all` or without it.
pub(crate) fn read_lines<A: Allocator + Copy>(
    alloc: A,
    has_all: bool,
    lines: &mut NumberedLines,
) -> Result<Vec<(u64, Line<A>), A>, CaptureRefusal>
    ensures { IsRead (λ v. v.items) result (lines_from has_all 0 lines.old.lines) }
{
    let mut parsed = Vec::new(alloc);
    let mut fields = Vec::new(alloc);
    let mut links = 0;
    while let Ok(line) = lines.next_line() {
        match read_numbered(alloc, &mut fields, has_all, links, &line) {
            Ok(said) => {
                links = links_after(links, &said);
                parsed.push((line.0, said))?;
            }
            Err(refusal) => return Err(refusal),
        }
    }
    Ok(parsed)
}
