//! One line of a capture.

ghost use Rattle.std.specs.Prelude.{map};
ghost use Rattle.gn_text.specs.Lines.{fields_of};
ghost use Rattle.gn_capture.specs.CaptureLines.{fields_say, line_in};
ghost use Rattle.gn_text.specs.Faults.{IsRead};
ghost use Rattle.gn_capture.specs.Outcomes.{IsLineRead, numbered};

use crate::event_lines::{alone, data_line, is_route_all, link_line, number_alone};
use crate::line::Line;
use crate::query_line::{ping_line, query_line};
use crate::refusal::LineRefusal;
use gn_numbers::{LineWord, line_word_named};
use gn_text::{CaptureRefusal, Cause, NumberedLine, fields_into};
use std::alloc::Allocator;

/// What the fields after a word say, where so many links are made before them.
fn read_fields<A: Allocator + Copy>(
    alloc: A,
    links: u64,
    fields: &[&[u8]],
    word: LineWord,
) -> Result<Line<A>, LineRefusal>
    ensures { IsLineRead result (fields_say links (map (λ x. x.now) fields.now) word) }
{
    match word {
        LineWord::Join => link_line(Line::Join, links, fields),
        LineWord::Open => link_line(Line::Greeted, links, fields),
        LineWord::Data => data_line(alloc, links, fields),
        LineWord::Route => Ok(Line::Route(number_alone(fields)?)),
        LineWord::Take => Ok(Line::Take(number_alone(fields)?)),
        LineWord::Close => Ok(Line::Close(number_alone(fields)?)),
        LineWord::Ping => ping_line(alloc, fields),
        LineWord::Query => query_line(alloc, fields),
        LineWord::Stats => alone(Line::Stats, fields),
    }
}

/// What the fields of a line say, in a version with the line `route all` or without it.
fn read_line<A: Allocator + Copy>(
    alloc: A,
    has_all: bool,
    links: u64,
    fields: &[&[u8]],
) -> Result<Line<A>, LineRefusal>
    ensures { IsLineRead result (line_in has_all links (map (λ x. x.now) fields.now)) }
{
    if has_all && is_route_all(fields) {
        return Ok(Line::RouteAll);
    }
    match fields {
        [first, fields @ ..] => match line_word_named(first) {
            Some(word) => read_fields(alloc, links, fields, word),
            None => Err(LineRefusal::Fault(Cause::Word)),
        },
        [] => Err(LineRefusal::Fault(Cause::Word)),
    }
}

/// What a line says, whose fields are put in place of those of another line.
pub(crate) fn read_numbered<'a, A: Allocator + Copy>(
    alloc: A,
    fields: &mut Vec<&'a [u8], A>,
    has_all: bool,
    links: u64,
    line: &NumberedLine<'a>,
) -> Result<Line<A>, CaptureRefusal>
    ensures { IsRead (λ said. said) result (numbered line.now.0 (line_in has_all links (fields_of line.now.1.now))) }
{
    let (number, text) = *line;
    fields.clear();
    fields_into(text, fields)?;
    match read_line(alloc, has_all, links, fields.as_slice()) {
        Ok(line) => Ok(line),
        Err(refusal) => Err(refusal.at(number)),
    }
}
