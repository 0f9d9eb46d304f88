//! Steps of a history that a router is asked for again, as they are read.

ghost use Rattle.std.specs.Prelude.{◌≡◌, [], IfOk, reverse};
ghost use Rattle.gn_rules.specs.Answer.{answer};
ghost use Rattle.gn_stream.specs.Reading.{Passes, place};
ghost use Rattle.gn_replay.specs.Judgements.{IsFoundOf, IsPassedOf, SayMade};
ghost use Rattle.gn_replay.specs.declared.judgement.Judgement.TheVariants.{Legal};

use crate::given::add;
use crate::judgement::{Answer, Judgement, WrongStep};
use gn_io::Source;
use gn_rules::{Event, Refusal, RouterCore};
use gn_stream::{LineReader, StreamFault, next_step};
use std::alloc::{AllocError, Allocator};

/// What the rules answer to an event. An `Err` is out of memory.
#[tactic(auto, using(crate::proofs::EventLemmas::found))]
fn rules_answer<A: Allocator + Copy, C: RouterCore<A>>(
    core: &C,
    event: &Event<A>,
) -> Result<Answer<A>, AllocError>
    ensures { IfOk result (λ found. answer (C.settings core.now) (reverse (C.steps core.now)) event.now ≡ found) }
{
    match core.answer_to(event) {
        Ok(reply) => Ok(Ok(reply)),
        Err(Refusal::NoMemory) => Err(AllocError),
        Err(refusal) => Ok(Err(refusal)),
    }
}

/// Reads the steps that are left, since a fault of a later line comes before what is found of an earlier step.
fn pass_left<A: Allocator + Copy, S: Source>(
    alloc: A,
    lines: &mut LineReader<A>,
    source: &mut S,
) -> Result<(), StreamFault>
    ensures { IsPassedOf A result (place (S.state source.old) lines.old) (place (S.state source.new) lines.new) }
{
    while let Some((_, step)) = next_step(alloc, lines, source)? {
        drop(step);
    }
    Ok(())
}

/// The judgement of a new router on the steps that are left of a history, and how many were right: it looks at each reply as
/// it is read, and then adds the step itself.
pub(crate) fn judge<A: Allocator + Copy, C: RouterCore<A>, S: Source>(
    alloc: A,
    core: &mut C,
    lines: &mut LineReader<A>,
    source: &mut S,
) -> Result<(Judgement<A>, u32), StreamFault>
    requires { C.steps core.old ≡ [] }
    ensures found { IsFoundOf (C.settings core.old) result
        (place (S.state source.old) lines.old) (place (S.state source.new) lines.new) }
    ensures made { IfOk result (λ judged. judged.0 ≡ Legal → Passes (SayMade (C.steps core.new))
        (place (S.state source.old) lines.old) (place (S.state source.new) lines.new)) }
{
    let mut index = 0u32;
    while let Some((number, step)) = next_step(alloc, lines, source)? {
        if !core.is_answered(&step) {
            let answer = rules_answer(core, &step.event);
            drop(step);
            let rules = answer?;
            let line = Vec::from_slice(alloc, lines.line())?;
            pass_left(alloc, lines, source)?;
            let wrong = WrongStep {
                index,
                number,
                line,
                rules,
            };
            return Ok((Judgement::WrongAt(wrong), index));
        }
        add(core, step)?;
        index += 1;
    }
    Ok((Judgement::Legal, index))
}
