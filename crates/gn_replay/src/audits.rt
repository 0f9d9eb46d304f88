//! A history audited from stream to stream, and explained.

ghost use Rattle.std.specs.Prelude.{IfOk, IfErr, IfSome};
ghost use Rattle.gn_replay.specs.Faults.{IsAuditOn};
ghost use Rattle.gn_capture.specs.Histories.{history_of};
ghost use Rattle.gn_io.specs.Streams.{streams, text_between};
ghost use Rattle.gn_stream.specs.Left.{all_lines, finished_lines};
ghost use Rattle.gn_replay.specs.Audits.{AppendsCutVerdict, AppendsVerdict, HasCutStopped, HasStopped, cut_history_of};
ghost use Rattle.gn_replay.specs.Explained.{AppendsExplained, HasExplainedStopped};

use crate::explanation::explained_lines;
use crate::fault::ReplayFault;
use crate::judged::{cut_verdict, judge_cut, judge_source, verdict};
use gn_io::{Sink, Source, write_all};
use gn_rules::{FreshRouter, Legality};
use std::alloc::Allocator;

/// Reads a history's text to its end, asks a new router for each of its steps again, and writes one line: `legal COUNT`, or
/// `wrong INDEX` with the index of the first step, counted from 0, at which the router does otherwise. The text may have any
/// length, and a line of it at most 67,108,864 bytes: no more is held than a line, 16,384 bytes, and what the router holds. A
/// text at fault is read no further than its first fault. Nothing is written before all is decided. An `Ok` says that no read
/// failed and no write failed or took nothing.
pub fn audit<A: Allocator + Copy, C: FreshRouter<A> + Drop, S: Source, W: Sink>(
    alloc: A,
    source: &mut S,
    sink: &mut W,
) -> Result<Legality, ReplayFault>
    ensures answer { IsAuditOn all_lines (history_of {A = A})
        (streams (S.state source.old) (S.state source.new) (W.state sink.old) (W.state sink.new)) result }
    ensures written { IfOk result (λ legality. IfSome (text_between (S.state source.old) (S.state source.new)) (λ text.
        AppendsVerdict A text legality (W.state sink.old).written (W.state sink.new).written)) }
    ensures stopped { IfErr result (λ fault. HasStopped A fault (text_between (S.state source.old) (S.state source.new))
        (W.state sink.old).written (W.state sink.new).written) }
{
    let (judgement, steps) = judge_source::<A, C, S>(alloc, source)?;
    let legality = judgement.legality();
    drop(judgement);
    let line = verdict(alloc, legality, steps)?;
    write_all(sink, &line)?;
    Ok(legality)
}

/// As `audit`; after `wrong INDEX` it writes two lines more: `line NUMBER: TEXT`, the wrong step's line as it stands in
/// the history, with its number counted from 1, and `rules: TEXT`, what the rules answer to its event: a reply as after
/// the `=` of a step, or `refused NAME`.
pub fn audit_explained<A: Allocator + Copy, C: FreshRouter<A> + Drop, S: Source, W: Sink>(
    alloc: A,
    source: &mut S,
    sink: &mut W,
) -> Result<Legality, ReplayFault>
    ensures answer { IsAuditOn all_lines (history_of {A = A})
        (streams (S.state source.old) (S.state source.new) (W.state sink.old) (W.state sink.new)) result }
    ensures written { IfOk result (λ legality. IfSome (text_between (S.state source.old) (S.state source.new)) (λ text.
        AppendsExplained A text legality (W.state sink.old).written (W.state sink.new).written)) }
    ensures stopped { IfErr result (λ fault.
        HasExplainedStopped A fault (text_between (S.state source.old) (S.state source.new))
        (W.state sink.old).written (W.state sink.new).written) }
{
    let (judgement, steps) = judge_source::<A, C, S>(alloc, source)?;
    let explained = explained_lines(alloc, &judgement, steps);
    drop(judgement);
    let (legality, lines) = explained?;
    write_all(sink, &lines)?;
    Ok(legality)
}

/// As `audit`, of a history whose text may have been cut, as where its run was killed: what stands after its last line feed isn't
/// looked at, and where no line is `end`, the verdict is that on the history with such a line at its end, and ` unfinished`
/// stands after it. The three first lines have to be whole.
pub fn audit_unfinished<A: Allocator + Copy, C: FreshRouter<A> + Drop, S: Source, W: Sink>(
    alloc: A,
    source: &mut S,
    sink: &mut W,
) -> Result<Legality, ReplayFault>
    ensures answer { IsAuditOn finished_lines (cut_history_of {A = A})
        (streams (S.state source.old) (S.state source.new) (W.state sink.old) (W.state sink.new)) result }
    ensures written { IfOk result (λ legality. IfSome (text_between (S.state source.old) (S.state source.new)) (λ text.
        AppendsCutVerdict A text legality (W.state sink.old).written (W.state sink.new).written)) }
    ensures stopped { IfErr result (λ fault.
        HasCutStopped A fault (text_between (S.state source.old) (S.state source.new))
        (W.state sink.old).written (W.state sink.new).written) }
{
    let judged = judge_cut::<A, C, S>(alloc, source)?;
    let line = cut_verdict(alloc, judged)?;
    write_all(sink, &line)?;
    Ok(judged.legality)
}
