//! The event of a step line.

ghost use Rattle.std.specs.Prelude.{◌≡◌, IfOk, option_map, map};
ghost use Rattle.gn_capture.specs.Events.{event_by, event_first, first_seen};

use crate::packet::{number_first, packet_first};
use gn_numbers::{EventWord, event_named};
use gn_rules::Event;
use std::alloc::{AllocError, Allocator};

/// The event of a word that the first fields say, and the fields after them. An `Err` is out of memory.
fn event_by<'a, 'b, A: Allocator + Copy>(
    alloc: A,
    fields: &'b [&'a [u8]],
    word: EventWord,
) -> Result<Option<(Event<A>, &'b [&'a [u8]])>, AllocError>
    ensures { IfOk result (λ found. option_map first_seen found ≡ event_by (map (λ x. x.now) fields.now) word) }
{
    match word {
        EventWord::Connect => Ok(Some((Event::Connect, fields))),
        EventWord::Close => match number_first(fields) {
            Some((c, more)) => Ok(Some((Event::Close(c), more))),
            None => Ok(None),
        },
        EventWord::Admit => {
            let Some((c, fields)) = number_first(fields) else {
                return Ok(None);
            };
            match packet_first(alloc, fields)? {
                Some((packet, more)) => Ok(Some((Event::Admit(c, packet), more))),
                None => Ok(None),
            }
        }
        EventWord::Route => match number_first(fields) {
            Some((t, more)) => Ok(Some((Event::Route(t), more))),
            None => Ok(None),
        },
        EventWord::Take => match number_first(fields) {
            Some((c, more)) => Ok(Some((Event::Take(c), more))),
            None => Ok(None),
        },
        EventWord::Originate => match packet_first(alloc, fields)? {
            Some((packet, more)) => Ok(Some((Event::Originate(packet), more))),
            None => Ok(None),
        },
    }
}

/// The event that the first fields say, and the fields after them. An `Err` is out of memory.
pub(crate) fn event_first<'a, 'b, A: Allocator + Copy>(
    alloc: A,
    fields: &'b [&'a [u8]],
) -> Result<Option<(Event<A>, &'b [&'a [u8]])>, AllocError>
    ensures { IfOk result (λ found. option_map first_seen found ≡ event_first (map (λ x. x.now) fields.now)) }
{
    let Some((first, more)) = fields.split_first() else {
        return Ok(None);
    };
    match event_named(first) {
        Some(word) => event_by(alloc, more, word),
        None => Ok(None),
    }
}
