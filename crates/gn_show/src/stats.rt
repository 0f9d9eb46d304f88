//! The counters of a history.

ghost use Rattle.std.specs.Prelude.{◌≡◌, ◌+◌, IfErr, IfOk, IfSome, OnOk};
ghost use Rattle.std.specs.declared.alloc.Global.{Global};
ghost use Rattle.gn_capture.specs.Histories.{history_of};
ghost use Rattle.gn_io.specs.Streams.{NoReadFailed, streams, text_between};
ghost use Rattle.gn_replay.specs.Faults.{IsTextFault, of_stream};
ghost use Rattle.gn_text.specs.Statistics.{stats_text};
ghost use Rattle.gn_stream.specs.Left.{AreShort, all_lines};
ghost use Rattle.gn_stream.specs.Reading.{place};
ghost use Rattle.gn_show.specs.Shown.{AppendsShown, HasShowStopped, IsShowOn};
ghost use Rattle.gn_show.specs.Showing.{AreCountedOf, IsCounted, IsCountedOf};
ghost use Rattle.gn_show.specs.declared.form.View.TheVariants.{Stats as Counters};

use gn_io::{Sink, Source, write_all};
use gn_replay::ReplayFault;
use gn_rules::{Counter, Stats};
use gn_stream::{LineReader, StreamFault, next_step, read_history_header};
use gn_text::push_stats;
use std::alloc::{AllocError, Global};

/// The next index. No step has an index of 4,294,967,295: an `Err` is there.
pub(crate) fn next_index(index: u32) -> Result<u32, AllocError>
    ensures { IfOk result (λ next. next ≡ index + 1) }
{
    index.checked_add(1).ok_or(AllocError)
}

/// Counts the steps that are left of a history.
fn count_steps<S: Source>(
    alloc: Global,
    lines: &mut LineReader,
    source: &mut S,
) -> Result<Stats, StreamFault>
    ensures { AreCountedOf result
        (place (S.state source.old) lines.old) (place (S.state source.new) lines.new) }
{
    let mut stats = Stats::new();
    let mut index = 0u32;
    while let Some((_, step)) = next_step(alloc, lines, source)? {
        let counter = Counter::of(&step.reply);
        drop(step);
        index = next_index(index)?;
        stats.raise(counter);
    }
    Ok(stats)
}

/// Counts the steps of the history that lines say.
fn count_lines<S: Source>(
    alloc: Global,
    lines: &mut LineReader,
    source: &mut S,
) -> Result<Stats, StreamFault>
    ensures { IsCountedOf result
        (place (S.state source.old) lines.old) (place (S.state source.new) lines.new) }
{
    read_history_header(alloc, lines, source)?;
    count_steps(alloc, lines, source)
}

/// Counts the steps of the history that a source gives.
fn count_source<S: Source>(alloc: Global, source: &mut S) -> Result<Stats, StreamFault>
    ensures counted { IfOk result (λ stats. IfSome (text_between (S.state source.old) (S.state source.new)) (λ text.
        AreShort (all_lines text).lines × IsCounted stats text)) }
    ensures unfailed { OnOk result (NoReadFailed (S.state source.old) (S.state source.new)) }
    ensures fault { IfErr result (λ fault. IsTextFault (of_stream fault) all_lines (history_of {A = Global})
        (S.state source.old) (S.state source.new)) }
{
    let mut lines = LineReader::new(alloc);
    count_lines(alloc, &mut lines, source)
}

/// The line of the counters.
fn stats_line(alloc: Global, stats: &Stats) -> Result<Vec<u8>, AllocError>
    ensures { IfOk result (λ line. line.items ≡ stats_text stats.now) }
{
    let mut line = Vec::new(alloc);
    push_stats(&mut line, stats)?;
    Ok(line)
}

/// Writes the line of the counters of the history that a source gives.
pub(crate) fn show_stats<S: Source, W: Sink>(
    alloc: Global,
    source: &mut S,
    sink: &mut W,
) -> Result<(), ReplayFault>
    ensures answer { IsShowOn Counters
        (streams (S.state source.old) (S.state source.new) (W.state sink.old) (W.state sink.new)) result }
    ensures written { OnOk result (IfSome (text_between (S.state source.old) (S.state source.new)) (λ text.
        AppendsShown Counters text (W.state sink.old).written (W.state sink.new).written)) }
    ensures stopped { IfErr result (λ fault.
        HasShowStopped Counters fault (text_between (S.state source.old) (S.state source.new))
        (W.state sink.old).written (W.state sink.new).written) }
{
    let stats = count_source(alloc, source)?;
    let line = stats_line(alloc, &stats)?;
    write_all(sink, &line)?;
    Ok(())
}
