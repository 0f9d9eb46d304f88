//! The three lines that a text begins with.

ghost use Rattle.std.specs.Prelude.{◌≡◌, ◌++◌, length, take, OnOk, OnErr};
ghost use Rattle.gn_rules.specs.Limits.{AreWithin};
ghost use Rattle.gn_text.specs.Faults.{IsRead};
ghost use Rattle.gn_text.specs.Header.{config_from, header_of, header_seen, header_text, own_from};

use crate::fault::CaptureRefusal;
use crate::line::fields;
use crate::parsed::NumberedLines;
use crate::part::{Part, push_parts};
use crate::settings::{push_config, push_own, read_config, read_own};
use gn_numbers::{Cause, Text, Version, least_version, read_version, title};
use gn_rules::{Config, Numbers};
use gn_wire::whole_or_none;
use std::alloc::{AllocError, Allocator};

/// The configuration of these numbers and the servent that the line `own` says.
#[tactic(auto, using(crate::proofs::FirstLines::own_read, crate::proofs::FirstLines::own_refused, crate::proofs::FirstLines::own_missing))]
fn read_own_line<A: Allocator + Copy>(
    alloc: A,
    numbers: Numbers,
    lines: &mut NumberedLines,
) -> Result<Config, CaptureRefusal>
    requires { AreWithin numbers }
    ensures header { IsRead (λ config. header_seen config lines.new) result
        (own_from numbers lines.old.after lines.old.lines) }
    ensures after { lines.new.after ≡ lines.old.after }
{
    match lines.next_line() {
        Ok((number, line)) => {
            let own = read_own(alloc, &fields(alloc, line)?)?;
            match own {
                Some(own) => Ok(Config::with(numbers, own)),
                None => Err(CaptureRefusal::at(number, Cause::Own)),
            }
        }
        Err(after) => Err(CaptureRefusal::at(after, Cause::Own)),
    }
}

/// The configuration that the lines `config` and `own` say, as a version has them, which are then gone. A missing one is at fault
/// after the last line. An `Err` may leave fewer lines.
#[tactic(auto, using(crate::proofs::FirstLines::config_read, crate::proofs::FirstLines::config_refused, crate::proofs::FirstLines::config_missing))]
pub fn read_settings<A: Allocator + Copy>(
    alloc: A,
    version: Version,
    lines: &mut NumberedLines,
) -> Result<Config, CaptureRefusal>
    ensures header { IsRead (λ config. header_seen config lines.new) result
        (config_from version lines.old.after lines.old.lines) }
    ensures after { lines.new.after ≡ lines.old.after }
{
    match lines.next_line() {
        Ok((number, line)) => {
            let numbers = read_config(version, &fields(alloc, line)?);
            match numbers {
                Some(numbers) => read_own_line(alloc, numbers, lines),
                None => Err(CaptureRefusal::at(number, Cause::Config)),
            }
        }
        Err(after) => Err(CaptureRefusal::at(after, Cause::Config)),
    }
}

/// Reads the three first lines of a text.
#[tactic(auto, using(crate::proofs::FirstLines::title_read, crate::proofs::FirstLines::title_other, crate::proofs::FirstLines::title_missing))]
fn read_title_line<A: Allocator + Copy>(
    alloc: A,
    text: Text,
    lines: &mut NumberedLines,
) -> Result<Config, CaptureRefusal>
    ensures header { IsRead (λ config. header_seen config lines.new) result
        (header_of text lines.old.after lines.old.lines) }
    ensures after { lines.new.after ≡ lines.old.after }
{
    match lines.next_line() {
        Ok((number, line)) => match read_version(text, line) {
            Some(version) => read_settings(alloc, version, lines),
            None => Err(CaptureRefusal::at(number, Cause::Header)),
        },
        Err(after) => Err(CaptureRefusal::at(after, Cause::Header)),
    }
}

/// The configuration that the lines of a text begin with, which are then gone: the first line is the title of a version,
/// letter by letter, the second its `config` line, the third an `own` line. A missing one is at fault after the last line. An `Err`
/// leaves all lines.
pub fn read_header<A: Allocator + Copy>(
    alloc: A,
    text: Text,
    lines: &mut NumberedLines,
) -> Result<Config, CaptureRefusal>
    ensures header { IsRead (λ config. header_seen config lines.new) result
        (header_of text lines.old.after lines.old.lines) }
    ensures after { lines.new.after ≡ lines.old.after }
    ensures kept { OnErr result (lines.new ≡ lines.old) }
{
    let mut left = lines.copy();
    match read_title_line(alloc, text, &mut left) {
        Ok(config) => {
            *lines = left;
            Ok(config)
        }
        Err(refusal) => Err(refusal),
    }
}

/// Appends the three first lines. An `Err` is out of memory, and may leave a part of it.
#[tactic(auto, using(crate::proofs::KeptLemmas::kept))]
fn write_header<B: Allocator>(
    out: &mut Vec<u8, B>,
    text: Text,
    config: &Config,
) -> Result<(), AllocError>
    ensures ok { OnOk result (out.new.items ≡ out.old.items ++ header_text text config.now) }
    ensures err { OnErr result (take (length out.old.items) out.new.items ≡ out.old.items) }
{
    let title = title(text, least_version(&config.numbers));
    push_parts(out, &[Part::Word(title.as_bytes()), Part::Word(b"\n")])?;
    push_config(out, &config.numbers)?;
    push_own(out, &config.own)
}

/// Appends the lines that a text of a configuration begins with: the title of the least version that can say it, its `config`
/// line and its `own` line. An `Err` is out of memory, and changes nothing.
pub fn push_header<B: Allocator>(
    out: &mut Vec<u8, B>,
    text: Text,
    config: &Config,
) -> Result<(), AllocError>
    ensures ok { OnOk result (out.new.items ≡ out.old.items ++ header_text text config.now) }
    ensures err { OnErr result (out.new.items ≡ out.old.items) }
{
    let start = out.len();
    let written = write_header(out, text, config);
    whole_or_none(out, start, written)
}
