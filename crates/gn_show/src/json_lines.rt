//! The line of a step in JSON.

ghost use Rattle.std.specs.Prelude.{◌≡◌, ◌∷◌, List, IfOk, OnOk};
ghost use Rattle.std.specs.declared.alloc.Global.{Global};
ghost use Rattle.gn_rules.specs.declared.receipt.Step.{Step};
ghost use Rattle.gn_show.specs.Kept.{Follows, placed, seen};
ghost use Rattle.gn_show.specs.Shown.{json_line, with_time};
ghost use Rattle.gn_show.specs.Subjects.{subject, waiting};

use crate::clock::Moment;
use crate::flight::{Flight, Subject};
use crate::step_json::put_step;
use crate::tokens::Tokens;
use gn_rules::Step;
use std::alloc::{AllocError, Global};

/// Adds the time to the text of an object, where there is one.
fn add_time(object: &mut Vec<u8>, time: &[u8]) -> Result<(), AllocError>
    ensures { OnOk result (object.new.items ≡ with_time time.now object.old.items) }
{
    if time.is_empty() {
        return Ok(());
    }
    object.truncate(object.len().saturating_sub(1));
    object.extend_from_slice(b",\"t\":")?;
    object.extend_from_slice(time)?;
    object.extend_from_slice(b"}")
}

/// The line of a step whose event speaks of this packet, in the place of this text.
fn json_line(
    alloc: Global,
    text: Vec<u8>,
    subject: Option<Subject<'_>>,
    moment: Moment<'_>,
    step: &Step,
) -> Result<Vec<u8>, AllocError>
    ensures { IfOk result (λ line. line.items ≡ json_line (seen subject.entry) (placed moment.entry) step.now) }
{
    let mut tokens = Tokens::over(alloc, text);
    put_step(&mut tokens, subject, moment.index, step);
    let mut line = tokens.into_text()?;
    add_time(&mut line, moment.time)?;
    line.push(b'\n')?;
    Ok(line)
}

/// The line of a step, which comes next, in the place of this text; what it leaves in flight is followed.
pub(crate) fn next_json(
    alloc: Global,
    text: Vec<u8>,
    flight: &mut Flight,
    moment: Moment<'_>,
    step: Step,
) -> Result<Vec<u8>, AllocError>
    ensures { IfOk result (λ line. (past : List (Step Global)) → Follows flight.old past
        → (line.items ≡ json_line (subject (waiting past) step.event) (placed moment.entry) step)
        × Follows flight.new (step ∷ past)) }
{
    let made = json_line(alloc, text, flight.subject(&step.event), moment, &step);
    let line = made?;
    flight.follow(step)?;
    Ok(line)
}
