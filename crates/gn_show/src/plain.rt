//! The line of a step in plain words.

ghost use Rattle.std.specs.Prelude.{◌≡◌, ◌++◌, IfOk, decimal};
ghost use Rattle.gn_show.specs.Pieces.{Puts};
ghost use Rattle.gn_show.specs.Plain.{aligned, event_words, plain_line, queued_words, reply_words, routed_words, sending_words, sends_words, shifted};

use crate::plain_descriptor::push_descriptor;
use crate::words::Words;
use gn_numbers::{counter_name, reason_name};
use gn_rules::{Counter, Event, Reply, Sending, Step};
use itoa::Buffer;
use std::alloc::{AllocError, Global};

/// Appends words, and a number after them.
fn push_numbered(out: &mut Words, words: &[u8], number: u32)
    ensures { Puts out.old out.new (words.now ++ decimal number) }
{
    out.put(words);
    out.put_number(number);
}

/// Appends a number at the right of a column.
fn push_shifted(out: &mut Words, width: usize, number: u32)
    ensures { Puts out.old out.new (shifted width (decimal number)) }
{
    let mut buffer = Buffer::new();
    let digits = buffer.format(number).as_bytes();
    out.put_spaces(width.saturating_sub(digits.len()));
    out.put(digits);
}

/// Appends an event in words.
fn push_event(out: &mut Words, event: &Event)
    ensures { Puts out.old out.new (event_words event.now) }
{
    match event {
        Event::Connect => out.put(b"connects"),
        Event::Close(c) => push_numbered(out, b"closes ", *c),
        Event::Admit(c, descriptor) => {
            out.put(b"from ");
            out.put_number(*c);
            out.put(b": ");
            push_descriptor(out, descriptor);
        }
        Event::Route(ticket) => push_numbered(out, b"routes #", *ticket),
        Event::Take(c) => push_numbered(out, b"takes for ", *c),
        Event::Originate(descriptor) => {
            out.put(b"own: ");
            push_descriptor(out, descriptor);
        }
    }
}

/// Appends an event at the left of a column.
fn push_event_column(out: &mut Words, event: &Event)
    ensures { Puts out.old out.new (aligned 32 (event_words event.now)) }
{
    let begun = out.len();
    push_event(out, event);
    let width = out.len().saturating_sub(begun);
    out.put_spaces(32usize.saturating_sub(width));
}

/// What stands between a send's connection and its descriptor.
fn queued_words(queued: bool) -> &'static [u8]
    ensures { result.now ≡ queued_words queued }
{
    if queued { b": " } else { b" lost: " }
}

/// Appends a send.
fn push_sending(out: &mut Words, sending: &Sending)
    ensures { Puts out.old out.new (sending_words sending.now) }
{
    out.put(b"; to ");
    out.put_number(sending.to);
    out.put(queued_words(sending.queued));
    push_descriptor(out, &sending.packet);
}

/// Appends sends, in order.
fn push_sends(out: &mut Words, sends: &[Sending])
    ensures { Puts out.old out.new (sends_words sends.now) }
{
    for sending in sends {
        push_sending(out, sending);
    }
}

/// Whether this router's servent gets what was routed.
fn routed_words(local: bool) -> &'static [u8]
    ensures { result.now ≡ routed_words local }
{
    if local { b"routed here" } else { b"routed" }
}

/// Appends a reply in words.
fn push_reply(out: &mut Words, reply: &Reply)
    ensures { Puts out.old out.new (reply_words reply.now) }
{
    match reply {
        Reply::Connected(c) => push_numbered(out, b"connected as ", *c),
        Reply::TooMany => out.put(b"too many"),
        Reply::Closed(count) => push_numbered(out, b"closed, discarded ", *count),
        Reply::Admitted(ticket) => push_numbered(out, b"admitted as #", *ticket),
        Reply::Routed { sends, local } => {
            out.put(routed_words(*local));
            push_sends(out, sends.as_slice());
        }
        Reply::Dropped(reason) => {
            out.put(b"dropped ");
            out.put(reason_name(*reason).as_bytes());
        }
        Reply::Taken(descriptor) => push_descriptor(out, descriptor),
        Reply::Sent(sends) => {
            out.put(b"sent");
            push_sends(out, sends.as_slice());
        }
        _ => out.put(counter_name(Counter::of(reply)).as_bytes()),
    }
}

/// The line of a step, whose index counts from 0.
pub(crate) fn plain_line(alloc: Global, index: u32, step: &Step) -> Result<Vec<u8>, AllocError>
    ensures { IfOk result (λ line. line.items ≡ plain_line index step.now) }
{
    let mut out = Words::new(alloc)?;
    push_shifted(&mut out, 7, index);
    out.put(b"  actor ");
    push_shifted(&mut out, 3, step.actor);
    out.put(b"  ");
    push_event_column(&mut out, &step.event);
    out.put(b"  ");
    push_reply(&mut out, &step.reply);
    out.put(b"\n");
    out.into_text()
}
