//! The names of events.

ghost use Rattle.std.specs.Prelude.{◌≡◌};
ghost use Rattle.gn_numbers.specs.Names.{event_name, event_named, word_of};

use crate::named::named;
use gn_rules::Event;
use std::alloc::Allocator;

/// The word that an event begins with.
#[derive(Clone, Copy, Debug)]
pub enum EventWord {
    Connect,
    Close,
    Admit,
    Route,
    Take,
    Originate,
}

/// The names of the events, each at its word's place.
const EVENTS: [(&str, EventWord); 6] = [
    ("connect", EventWord::Connect),
    ("close", EventWord::Close),
    ("admit", EventWord::Admit),
    ("route", EventWord::Route),
    ("take", EventWord::Take),
    ("originate", EventWord::Originate),
];

/// The word of an event.
fn word_of<A: Allocator>(event: &Event<A>) -> EventWord
    ensures { result ≡ word_of event.now }
{
    match event {
        Event::Connect => EventWord::Connect,
        Event::Close(_) => EventWord::Close,
        Event::Admit(_, _) => EventWord::Admit,
        Event::Route(_) => EventWord::Route,
        Event::Take(_) => EventWord::Take,
        Event::Originate(_) => EventWord::Originate,
    }
}

/// The name of an event.
pub fn event_name<A: Allocator>(event: &Event<A>) -> &'static str
    ensures { result.now ≡ event_name (word_of event.now) }
{
    EVENTS[word_of(event) as usize].0
}

/// The word of the events that a field names.
pub fn event_named(field: &[u8]) -> Option<EventWord>
    ensures { result ≡ event_named field.now }
{
    named(&EVENTS, field)
}
