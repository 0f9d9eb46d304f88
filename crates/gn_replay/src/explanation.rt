//! The verdict on a history's text, with what explains its first wrong step.

ghost use Rattle.std.specs.Prelude.{◌≡◌, ◌++◌, IfOk, OnOk};
ghost use Rattle.gn_replay.specs.Judgements.{IsJudged};
ghost use Rattle.gn_replay.specs.Explained.{IsAuditExplained, answer_line, explanation_text};

use crate::judged::verdict;
use crate::judgement::{Answer, Judgement, WrongStep};
use gn_rules::Legality;
use gn_text::{push_refusal, push_reply};
use std::alloc::{AllocError, Allocator};

/// Appends what the rules answer, or `refused` and why. An `Err` is out of memory, and may leave a part of it.
fn write_answer<A: Allocator>(out: &mut Vec<u8, A>, rules: &Answer<A>) -> Result<(), AllocError>
    ensures { OnOk result (out.new.items ≡ out.old.items ++ answer_line rules.now) }
{
    match rules {
        Ok(reply) => {
            push_reply(out, reply)?;
            out.extend_from_slice(b"\n")
        }
        Err(refusal) => push_refusal(out, *refusal),
    }
}

/// Appends the two lines that explain a wrong step. An `Err` is out of memory, and may leave a part of them.
fn write_explanation<A: Allocator + Copy>(
    alloc: A,
    out: &mut Vec<u8, A>,
    wrong: &WrongStep<A>,
) -> Result<(), AllocError>
    ensures { OnOk result (out.new.items ≡ out.old.items
        ++ explanation_text (wrong.now.number, wrong.now.line.items) wrong.now.rules) }
{
    let head = format!(in alloc; "line {}: ", wrong.number)?;
    out.extend_from_slice(head.as_bytes())?;
    out.extend_from_slice(&wrong.line)?;
    out.extend_from_slice(b"\nrules: ")?;
    write_answer(out, &wrong.rules)
}

/// The verdict of a judgement on a history's text, and the lines that state and explain it.
pub(crate) fn explained_lines<A: Allocator + Copy>(
    alloc: A,
    judgement: &Judgement<A>,
    steps: u32,
) -> Result<(Legality, Vec<u8, A>), AllocError>
    ensures { IfOk result (λ explained. (text : _) → IsJudged A text judgement.now steps
        → IsAuditExplained A text explained.0 explained.1.items) }
{
    let legality = judgement.legality();
    let mut lines = verdict(alloc, legality, steps)?;
    match judgement {
        Judgement::Legal => Ok((legality, lines)),
        Judgement::WrongAt(wrong) => {
            write_explanation(alloc, &mut lines, wrong)?;
            Ok((legality, lines))
        }
    }
}
