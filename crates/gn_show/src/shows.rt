//! A history shown from stream to stream.

ghost use Rattle.std.specs.Prelude.{IfErr, IfSome, OnOk};
ghost use Rattle.gn_io.specs.Streams.{streams, text_between};
ghost use Rattle.gn_show.specs.Shown.{AppendsShown, HasShowStopped, IsShowOn};

use crate::form::View;
use crate::showing::show_steps;
use crate::stats::show_stats;
use gn_io::{Sink, Source};
use gn_replay::ReplayFault;
use std::alloc::Global;

/// Reads a history's text to its end, and writes what is shown of it: the lines of each step; or the line of its counters. Whether the
/// history is legal isn't looked at. The text may have any length, and a line of it at most 67,108,864 bytes: no more is held than a
/// line, 16,384 bytes of the text, as many of rows that were shown, what is shown of one step and waits, and what was admitted and
/// isn't routed.
///
/// Lines of steps are written in blocks of at least 32,768 bytes, and all that wait before the source is asked for more, where the next
/// line isn't read yet, so that what is shown is seen while the source waits. The text is read no further than its first fault, and the
/// lines of the steps before it are written then. Counters are written at the end alone. A history of more than 4,294,967,295 steps is
/// `NoMemory`. An `Ok` says that no read failed and no write failed or took nothing.
pub fn show<S: Source, W: Sink>(
    alloc: Global,
    view: View,
    source: &mut S,
    sink: &mut W,
) -> Result<(), ReplayFault>
    ensures answer { IsShowOn view
        (streams (S.state source.old) (S.state source.new) (W.state sink.old) (W.state sink.new)) result }
    ensures written { OnOk result (IfSome (text_between (S.state source.old) (S.state source.new)) (λ text.
        AppendsShown view text (W.state sink.old).written (W.state sink.new).written)) }
    ensures stopped { IfErr result (λ fault.
        HasShowStopped view fault (text_between (S.state source.old) (S.state source.new))
        (W.state sink.old).written (W.state sink.new).written) }
{
    match view {
        View::Steps(form) => show_steps(alloc, form, source, sink),
        View::Stats => show_stats(alloc, source, sink),
    }
}
