//! The verdict on a history's text, and its line.

ghost use Rattle.std.specs.Prelude.{◌≡◌, ◌++◌, ℕ, List, decimal, IfOk, IfErr, IfSome, OnOk};
ghost use Rattle.gn_capture.specs.Histories.{history_of};
ghost use Rattle.gn_io.specs.Streams.{NoReadFailed, text_between};
ghost use Rattle.gn_stream.specs.Left.{AreShort, all_lines, finished_lines};
ghost use Rattle.gn_stream.specs.Reading.{place};
ghost use Rattle.gn_replay.specs.Audits.{IsCutFound, cut_history_of, cut_verdict, verdict_ended, verdict_text};
ghost use Rattle.gn_replay.specs.Faults.{IsTextFault, of_stream};
ghost use Rattle.gn_replay.specs.Judgements.{IsFoundWholeOf, IsJudged};

use crate::judge::judge;
use crate::judgement::Judgement;
use gn_io::Source;
use gn_rules::{FreshRouter, Legality};
use gn_stream::{LineReader, StreamFault, read_history_header};
use gn_text::push_number;
use std::alloc::{AllocError, Allocator};

/// The word of a verdict, and the number behind it: that of the steps, or the index of the first wrong one.
fn verdict_words(legality: Legality, steps: u32) -> (&'static [u8], u32)
    ensures { (end : List ℕ) → verdict_ended legality steps end ≡ result.0.now ++ decimal result.1 ++ end }
{
    match legality {
        Legality::Legal => (b"legal ", steps),
        Legality::WrongAt(index) => (b"wrong ", index),
    }
}

/// The words of a verdict on a history of so many steps, and what ends them.
fn verdict_ended<A: Allocator>(
    alloc: A,
    legality: Legality,
    steps: u32,
    end: &str,
) -> Result<Vec<u8, A>, AllocError>
    ensures { IfOk result (λ line. line.items ≡ verdict_ended legality steps end.now) }
{
    let (word, number) = verdict_words(legality, steps);
    let mut line = Vec::new(alloc);
    line.extend_from_slice(word)?;
    push_number(&mut line, number)?;
    line.extend_from_slice(end.as_bytes())?;
    Ok(line)
}

/// The line of a verdict on a history of so many steps.
pub(crate) fn verdict<A: Allocator>(
    alloc: A,
    legality: Legality,
    steps: u32,
) -> Result<Vec<u8, A>, AllocError>
    ensures { IfOk result (λ line. line.items ≡ verdict_text legality steps) }
{
    verdict_ended(alloc, legality, steps, "\n")
}

/// The line of a verdict on a history that may have been cut.
pub(crate) fn cut_verdict<A: Allocator>(
    alloc: A,
    judged: CutJudged,
) -> Result<Vec<u8, A>, AllocError>
    ensures { IfOk result (λ line. line.items ≡ cut_verdict judged.lacks_end judged.legality judged.steps) }
{
    let end = if judged.lacks_end {
        " unfinished\n"
    } else {
        "\n"
    };
    verdict_ended(alloc, judged.legality, judged.steps, end)
}

/// What a new router finds of the history that the lines of a reader say, and how many steps it found right.
fn judge_lines<A: Allocator + Copy, C: FreshRouter<A> + Drop, S: Source>(
    alloc: A,
    lines: &mut LineReader<A>,
    source: &mut S,
) -> Result<(Judgement<A>, u32), StreamFault>
    ensures { IsFoundWholeOf result (place (S.state source.old) lines.old) (place (S.state source.new) lines.new) }
{
    let config = read_history_header(alloc, lines, source)?;
    let mut core = C::make(alloc, &config)?;
    judge(alloc, &mut core, lines, source)
}

/// What a new router finds of the history that a source gives, and how many steps it found right.
pub(crate) fn judge_source<A: Allocator + Copy, C: FreshRouter<A> + Drop, S: Source>(
    alloc: A,
    source: &mut S,
) -> Result<(Judgement<A>, u32), StreamFault>
    ensures judged { IfOk result (λ judged. IfSome (text_between (S.state source.old) (S.state source.new)) (λ text.
        AreShort (all_lines text).lines × IsJudged A text judged.0 judged.1)) }
    ensures unfailed { OnOk result (NoReadFailed (S.state source.old) (S.state source.new)) }
    ensures fault { IfErr result (λ fault. IsTextFault (of_stream fault) all_lines (history_of {A = A})
        (S.state source.old) (S.state source.new)) }
{
    let mut lines = LineReader::new(alloc);
    judge_lines::<A, C, S>(alloc, &mut lines, source)
}

/// What a new router finds of a history that a source gives and that may have been cut.
#[derive(Clone, Copy)]
pub(crate) struct CutJudged {
    pub(crate) legality: Legality,
    /// How many steps it found right.
    pub(crate) steps: u32,
    /// Whether the text lacks the line `end`.
    pub(crate) lacks_end: bool,
}

/// What a new router finds of the history that a source gives, where its text may have been cut.
pub(crate) fn judge_cut<A: Allocator + Copy, C: FreshRouter<A> + Drop, S: Source>(
    alloc: A,
    source: &mut S,
) -> Result<CutJudged, StreamFault>
    ensures judged { IfOk result (λ judged. IfSome (text_between (S.state source.old) (S.state source.new)) (λ text.
        AreShort (finished_lines text).lines × IsCutFound A text judged)) }
    ensures unfailed { OnOk result (NoReadFailed (S.state source.old) (S.state source.new)) }
    ensures fault { IfErr result (λ fault. IsTextFault (of_stream fault) finished_lines (cut_history_of {A = A})
        (S.state source.old) (S.state source.new)) }
{
    let mut lines = LineReader::of_cut(alloc);
    let judged = judge_lines::<A, C, S>(alloc, &mut lines, source);
    let lacks_end = lines.has_added_end();
    drop(lines);
    let (judgement, steps) = judged?;
    let legality = judgement.legality();
    drop(judgement);
    Ok(CutJudged {
        legality,
        steps,
        lacks_end,
    })
}
