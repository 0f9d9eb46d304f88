//! A capture, read whole.

ghost use Rattle.std.specs.Prelude.{◌≡◌, IfErr};
ghost use Rattle.gn_text.specs.Faults.{IsRead};
ghost use Rattle.gn_text.specs.Header.{header_seen};
ghost use Rattle.gn_capture.specs.Captures.{capture_of, capture_seen, has_all, header_from};
ghost use Rattle.gn_capture.specs.FirstFaults.{NamesFirst};

use crate::body::read_lines;
use crate::line::Line;
use gn_rules::Config;
use gn_text::{
    CaptureRefusal, Cause, NumberedLines, Text, Version, is_word, read_header, read_settings,
};
use std::alloc::{Allocator, Global};

/// What a capture says: how the router is set up, and what happens to it.
#[derive(Drop)]
pub struct Capture<A: Allocator = Global> {
    pub config: Config,
    /// Each line after the first three with its number, without those that are skipped. Numbers count from 1, skipped
    /// lines too.
    pub lines: Vec<(u64, Line<A>), A>,
}

/// Whether a capture of these lines has the line `route all`.
#[tactic(auto, using(crate::proofs::FifthLemmas::titled, crate::proofs::FifthLemmas::untitled))]
fn has_all(lines: &NumberedLines) -> bool
    ensures { result ≡ has_all lines.now.lines }
{
    let mut left = lines.copy();
    match left.next_line() {
        Ok((_, title)) => is_word(title, b"gnutella-capture 5"),
        Err(_) => false,
    }
}

/// The configuration that the first three lines of a capture say, which are then gone.
#[tactic(auto, using(crate::proofs::FifthLemmas::earlier_read, crate::proofs::FifthLemmas::fifth_read, crate::proofs::FifthLemmas::title_missing))]
fn read_first_lines<A: Allocator + Copy>(
    alloc: A,
    lines: &mut NumberedLines,
) -> Result<Config, CaptureRefusal>
    ensures { IsRead (λ config. header_seen config lines.new) result (header_from lines.old.after lines.old.lines) }
{
    if !has_all(lines) {
        return read_header(alloc, Text::Capture, lines);
    }
    match lines.next_line() {
        Ok(_) => read_settings(alloc, Version::Third, lines),
        Err(after) => Err(CaptureRefusal::at(after, Cause::Header)),
    }
}

/// What a capture says; else its first line that has a fault, with that line's first cause. An `Err` is that, or out of
/// memory.
pub fn read_capture<A: Allocator + Copy>(
    alloc: A,
    text: &[u8],
) -> Result<Capture<A>, CaptureRefusal>
    ensures read { IsRead capture_seen result (capture_of text.now) }
    ensures first { IfErr result (λ refusal. NamesFirst A text.now refusal) }
{
    let mut lines = NumberedLines::of(text);
    let has_all = has_all(&lines);
    match read_first_lines(alloc, &mut lines) {
        Ok(config) => match read_lines(alloc, has_all, &mut lines) {
            Ok(lines) => Ok(Capture { config, lines }),
            Err(refusal) => Err(refusal),
        },
        Err(refusal) => Err(refusal),
    }
}
