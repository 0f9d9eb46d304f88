//! What a run is.

use crate::answer_runs::ANSWER_RUNS;
use crate::encoding::encoded;
use crate::link_runs::LINK_RUNS;
use crate::request_runs::REQUEST_RUNS;
use gn_capture::{Capture, read_capture};
use std::alloc::{AllocError, Allocator, Global};
use std::test::Fail;

/// The numbers of the configuration that most runs have.
pub(crate) const USUAL: &str = "4 8 4 8 8 100";

/// The line of the own servent.
const OWN: &str = "own eeeeeeeeeeeeeeeeeeeeeeeeeeeeeeee 127.0.0.1 6346 5 40\n";

/// A capture, and what is printed of it. The texts are short ones, as stated in `encoding`.
pub(crate) struct Run {
    pub name: &'static str,
    /// The numbers of its configuration.
    pub numbers: &'static str,
    /// The lines after the first three.
    pub capture: &'static str,
    /// What is printed.
    pub printed: &'static str,
}

/// All runs.
pub(crate) fn all_runs() -> [&'static [Run]; 3] {
    [&REQUEST_RUNS, &LINK_RUNS, &ANSWER_RUNS]
}

/// The text of a capture of these numbers and lines: of version 1 where there are six numbers, 2 where there are seven, and
/// 3 where there are eight; of version 5 where a line is `route all`.
pub(crate) fn capture_text(
    alloc: Global,
    numbers: &str,
    lines: &str,
) -> Result<String, AllocError> {
    let lines = encoded(alloc, lines)?;
    let version = if lines.contains("route all") {
        5
    } else {
        numbers.split(' ').count().saturating_sub(5)
    };
    format!(in alloc; "gnutella-capture {version}\nconfig {numbers}\n{OWN}{lines}")
}

/// The capture of a run.
pub(crate) fn capture_of<A: Allocator + Copy>(
    texts: Global,
    alloc: A,
    run: &Run,
) -> Result<Capture<A>, Fail> {
    let text = capture_text(texts, run.numbers, run.capture)?;
    let read = read_capture(alloc, text.as_bytes());
    drop(text);
    match read {
        Ok(capture) => Ok(capture),
        Err(_) => Err(Fail::from(run.name)),
    }
}
