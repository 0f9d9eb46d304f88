//! The line of a step.

ghost use Rattle.std.specs.Prelude.{◌≡◌, IfOk, map};
ghost use Rattle.gn_capture.specs.Steps.{answer_parsed, step_parsed};

use crate::event::event_first;
use crate::packet::number_first;
use crate::reply::read_reply;
use gn_rules::{Reply, Step};
use gn_text::is_word;
use std::alloc::{AllocError, Allocator};

/// The reply that the fields after `=` say. An `Err` is out of memory.
fn read_answer<A: Allocator + Copy>(
    alloc: A,
    fields: &[&[u8]],
) -> Result<Option<Reply<A>>, AllocError>
    ensures { IfOk result (λ found. found ≡ answer_parsed (map (λ x. x.now) fields.now)) }
{
    match fields {
        [word, more @ ..] if is_word(word, b"=") => read_reply(alloc, more),
        _ => Ok(None),
    }
}

/// The step that the fields of a line `ACTOR EVENT = REPLY` say. An `Err` is out of memory.
pub(crate) fn read_step<A: Allocator + Copy>(
    alloc: A,
    fields: &[&[u8]],
) -> Result<Option<Step<A>>, AllocError>
    ensures { IfOk result (λ found. found ≡ step_parsed (map (λ x. x.now) fields.now)) }
{
    let Some((actor, fields)) = number_first(fields) else {
        return Ok(None);
    };
    let Some((event, fields)) = event_first(alloc, fields)? else {
        return Ok(None);
    };
    match read_answer(alloc, fields) {
        Ok(Some(reply)) => Ok(Some(Step {
            actor,
            event,
            reply,
        })),
        Ok(None) => {
            drop(event);
            Ok(None)
        }
        Err(error) => {
            drop(event);
            Err(error)
        }
    }
}
