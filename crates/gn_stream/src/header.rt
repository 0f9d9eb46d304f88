//! The three lines that a history begins with, read one at a time.

ghost use Rattle.gn_rules.specs.Limits.{AreWithin};
ghost use Rattle.gn_text.specs.Header.{config_from, own_from};
ghost use Rattle.gn_stream.specs.Reading.{place};
ghost use Rattle.gn_stream.specs.Steps.{IsHeaderRead, IsSaid};

use crate::fault::StreamFault;
use crate::lines::LineReader;
use crate::numbered::next_numbered;
use gn_io::Source;
use gn_rules::{Config, Numbers};
use gn_text::{CaptureRefusal, Cause, Text, Version, fields, read_config, read_own, read_version};
use std::alloc::Allocator;

/// The configuration of these numbers and the servent that the line `own` says.
fn read_own_line<A: Allocator + Copy, S: Source>(
    alloc: A,
    numbers: Numbers,
    lines: &mut LineReader<A>,
    source: &mut S,
) -> Result<Config, StreamFault>
    requires { AreWithin numbers }
    ensures { IsSaid (own_from numbers) result
        (place (S.state source.old) lines.old) (place (S.state source.new) lines.new) }
{
    let Some(number) = next_numbered(lines, source)? else {
        let missing = CaptureRefusal::at(lines.next(), Cause::Own);
        return Err(StreamFault::Text(missing));
    };
    match read_own(alloc, &fields(alloc, lines.line())?)? {
        Some(own) => Ok(Config::with(numbers, own)),
        None => Err(StreamFault::Text(CaptureRefusal::at(number, Cause::Own))),
    }
}

/// Reads the lines `config` and `own` of a history of this version.
fn read_config_line<A: Allocator + Copy, S: Source>(
    alloc: A,
    version: Version,
    lines: &mut LineReader<A>,
    source: &mut S,
) -> Result<Config, StreamFault>
    ensures { IsSaid (config_from version) result
        (place (S.state source.old) lines.old) (place (S.state source.new) lines.new) }
{
    let Some(number) = next_numbered(lines, source)? else {
        let missing = CaptureRefusal::at(lines.next(), Cause::Config);
        return Err(StreamFault::Text(missing));
    };
    let numbers = read_config(version, &fields(alloc, lines.line())?);
    match numbers {
        Some(numbers) => read_own_line(alloc, numbers, lines, source),
        None => Err(StreamFault::Text(CaptureRefusal::at(number, Cause::Config))),
    }
}

/// The configuration that a history begins with, whose three lines are then gone: the title of a version, letter by letter, its
/// `config` line and an `own` line. A missing one is at fault after the last line.
pub fn read_history_header<A: Allocator + Copy, S: Source>(
    alloc: A,
    lines: &mut LineReader<A>,
    source: &mut S,
) -> Result<Config, StreamFault>
    ensures { IsHeaderRead result
        (place (S.state source.old) lines.old) (place (S.state source.new) lines.new) }
{
    let Some(number) = next_numbered(lines, source)? else {
        let missing = CaptureRefusal::at(lines.next(), Cause::Header);
        return Err(StreamFault::Text(missing));
    };
    match read_version(Text::History, lines.line()) {
        Some(version) => read_config_line(alloc, version, lines, source),
        None => Err(StreamFault::Text(CaptureRefusal::at(number, Cause::Header))),
    }
}
