//! Steps as JSON.

ghost use Rattle.std.specs.Prelude.{codes, None, Some};
ghost use Rattle.serde_json.specs.Data.{string};
ghost use Rattle.gn_rules.specs.declared.event.Event.TheVariants.{Admit};
ghost use Rattle.gn_rules.specs.declared.reply.Reply.TheVariants.{Routed};
ghost use Rattle.gn_show.specs.Kept.{seen};
ghost use Rattle.gn_show.specs.Pieces.{Puts};
ghost use Rattle.gn_show.specs.Tokens.{tokens_of};
ghost use Rattle.gn_show.specs.Values.{after_kind, before_kind, descriptor_data, event_as, kind_data, number_data, reply_as, route_data, sends_data, step_data};

use crate::descriptor_json::{put_descriptor, put_sends};
use crate::flight::Subject;
use crate::tokens::Tokens;
use gn_numbers::{counter_name, event_name};
use gn_rules::{Counter, Event, Reply, Sending, Step};
use gn_wire::Descriptor;

/// An event or a reply of which the kind says all.
fn put_kind(tokens: &mut Tokens, kind: &str)
    ensures { Puts tokens.old tokens.new (tokens_of (kind_data kind.now)) }
{
    tokens.begin_object();
    tokens.put_text("kind", kind);
    tokens.end_object();
}

/// An event or a reply of this kind that has a number under this name and nothing else.
fn put_numbered(tokens: &mut Tokens, name: &str, number: u32, kind: &str)
    ensures { Puts tokens.old tokens.new (tokens_of (before_kind name.now (number_data number) kind.now)) }
{
    tokens.begin_object();
    tokens.put_number(name, number);
    tokens.put_text("kind", kind);
    tokens.end_object();
}

/// An event or a reply of this kind that names a ticket.
fn put_ticket(tokens: &mut Tokens, kind: &str, ticket: u32)
    ensures { Puts tokens.old tokens.new (tokens_of (after_kind kind.now (codes "ticket") (number_data ticket))) }
{
    tokens.begin_object();
    tokens.put_text("kind", kind);
    tokens.put_number("ticket", ticket);
    tokens.end_object();
}

/// An event or a reply of this kind that has a descriptor and nothing else.
fn put_whole(tokens: &mut Tokens, descriptor: &Descriptor, kind: &str)
    ensures { Puts tokens.old tokens.new
        (tokens_of (before_kind (codes "descriptor") (descriptor_data descriptor.now) kind.now)) }
{
    tokens.begin_object();
    tokens.put_name("descriptor");
    put_descriptor(tokens, descriptor);
    tokens.put_text("kind", kind);
    tokens.end_object();
}

/// An Admit, with its connection and its descriptor.
fn put_admit(tokens: &mut Tokens, kind: &str, c: u32, descriptor: &Descriptor)
    ensures { Puts tokens.old tokens.new (tokens_of (event_as kind.now None (Admit c descriptor.now))) }
{
    tokens.begin_object();
    tokens.put_number("connection", c);
    tokens.put_name("descriptor");
    put_descriptor(tokens, descriptor);
    tokens.put_text("kind", kind);
    tokens.end_object();
}

/// A Route of what waits under its ticket, with its descriptor and the connection that brought it.
fn put_routing(tokens: &mut Tokens, kind: &str, subject: Subject<'_>, ticket: u32)
    ensures { Puts tokens.old tokens.new (tokens_of (route_data kind.now (seen (Some subject.entry)) ticket)) }
{
    tokens.begin_object();
    tokens.put_name("descriptor");
    put_descriptor(tokens, subject.packet);
    tokens.put_number("from", subject.origin);
    tokens.put_text("kind", kind);
    tokens.put_number("ticket", ticket);
    tokens.end_object();
}

/// A Route, with what waits under its ticket.
fn put_route(tokens: &mut Tokens, kind: &str, subject: Option<Subject<'_>>, ticket: u32)
    ensures { Puts tokens.old tokens.new (tokens_of (route_data kind.now (seen subject.entry) ticket)) }
{
    match subject {
        Some(subject) => put_routing(tokens, kind, subject, ticket),
        None => put_ticket(tokens, kind, ticket),
    }
}

/// An event of this name that speaks of this packet.
fn put_event(tokens: &mut Tokens, kind: &str, subject: Option<Subject<'_>>, event: &Event)
    ensures { Puts tokens.old tokens.new (tokens_of (event_as kind.now (seen subject.entry) event.now)) }
{
    match event {
        Event::Connect => put_kind(tokens, kind),
        Event::Close(c) => put_numbered(tokens, "connection", *c, kind),
        Event::Admit(c, descriptor) => put_admit(tokens, kind, *c, descriptor),
        Event::Route(ticket) => put_route(tokens, kind, subject, *ticket),
        Event::Take(c) => put_numbered(tokens, "connection", *c, kind),
        Event::Originate(descriptor) => put_whole(tokens, descriptor, kind),
    }
}

/// A reply Routed, with its sends.
fn put_routed(tokens: &mut Tokens, kind: &str, sends: &[Sending], local: bool)
    ensures { Puts tokens.old tokens.new (tokens_of (reply_as kind.now (Routed sends.now local))) }
{
    tokens.begin_object();
    tokens.put_text("kind", kind);
    tokens.put_flag("local", local);
    tokens.put_name("sends");
    put_sends(tokens, sends);
    tokens.end_object();
}

/// A reply Dropped, with the name of its reason.
fn put_dropped(tokens: &mut Tokens, reason: &str)
    ensures { Puts tokens.old tokens.new
        (tokens_of (after_kind (codes "dropped") (codes "reason") (string reason.now))) }
{
    tokens.begin_object();
    tokens.put_text("kind", "dropped");
    tokens.put_text("reason", reason);
    tokens.end_object();
}

/// A reply Sent, with its sends.
fn put_sent(tokens: &mut Tokens, kind: &str, sends: &[Sending])
    ensures { Puts tokens.old tokens.new (tokens_of (after_kind kind.now (codes "sends") (sends_data sends.now))) }
{
    tokens.begin_object();
    tokens.put_text("kind", kind);
    tokens.put_name("sends");
    put_sends(tokens, sends);
    tokens.end_object();
}

/// A reply whose counter has this name.
fn put_reply(tokens: &mut Tokens, kind: &str, reply: &Reply)
    ensures { Puts tokens.old tokens.new (tokens_of (reply_as kind.now reply.now)) }
{
    match reply {
        Reply::Connected(c) => put_numbered(tokens, "connection", *c, kind),
        Reply::Closed(count) => put_numbered(tokens, "discarded", *count, kind),
        Reply::Admitted(ticket) => put_ticket(tokens, kind, *ticket),
        Reply::Routed { sends, local } => { put_routed(tokens, kind, sends.as_slice(), *local) }
        Reply::Dropped(_) => put_dropped(tokens, kind),
        Reply::Taken(descriptor) => put_whole(tokens, descriptor, kind),
        Reply::Sent(sends) => put_sent(tokens, kind, sends.as_slice()),
        _ => put_kind(tokens, kind),
    }
}

/// Writes a step with its index, counted from 0, whose event speaks of this packet.
pub(crate) fn put_step(tokens: &mut Tokens, subject: Option<Subject<'_>>, index: u32, step: &Step)
    ensures { Puts tokens.old tokens.new (tokens_of (step_data (seen subject.entry) index step.now)) }
{
    tokens.begin_object();
    tokens.put_number("actor", step.actor);
    tokens.put_name("event");
    put_event(tokens, event_name(&step.event), subject, &step.event);
    tokens.put_name("reply");
    put_reply(tokens, counter_name(Counter::of(&step.reply)), &step.reply);
    tokens.put_number("step", index);
    tokens.end_object();
}
