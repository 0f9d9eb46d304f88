//! That numbers and bytes fit their types, as promises that proofs can cite. These functions change nothing and take no
//! memory.

ghost use Rattle.std.specs.Prelude.{◌≡◌, ◌<◌, ◌^◌, length, IfSome};
ghost use Rattle.std.specs.List.{AllByRecursion};
ghost use Rattle.hex.specs.Hex.{IsBytes};
ghost use Rattle.gn_capture.specs.RoundTrip.{IsEvent, IsNumber, IsOwn, IsPacket, IsReply, IsSending, IsStep};

use gn_rules::{Event, Own, Reply, Sending, Step};
use gn_wire::{Descriptor, write_header};
use std::alloc::Allocator;

/// A number is within a u32.
fn number_fits(_number: u32)
    ensures { IsNumber _number }
{}

/// So is one that may be missing.
fn number_fits_if(number: Option<u32>)
    ensures { IfSome number IsNumber }
{
    match number {
        Some(number) => number_fits(number),
        None => {}
    }
}

/// Bytes are below 256.
fn bytes_fit(_bytes: &[u8])
    ensures { IsBytes _bytes.now }
{}

/// So many octets are bytes.
fn octets_fit<const N: usize>(octets: &[u8; N])
    ensures size { length octets.now ≡ N }
    ensures bytes { IsBytes octets.now }
{
    bytes_fit(octets);
}

/// A port is within 16 bits.
fn port_fits(_port: u16)
    ensures { _port < 2 ^ 16 }
{}

/// A descriptor is of bytes.
fn packet_fits<A: Allocator>(packet: &Descriptor<A>)
    ensures { IsPacket packet.now }
{
    bytes_fit(&write_header(&packet.header()));
    bytes_fit(packet.payload().as_slice());
}

/// A send is of a number and bytes.
fn sending_fits<A: Allocator>(sending: &Sending<A>)
    ensures { IsSending sending.now }
{
    number_fits(sending.to);
    packet_fits(&sending.packet);
}

/// So is each send.
fn sends_fit<A: Allocator>(sends: &[Sending<A>])
    ensures { AllByRecursion IsSending sends.now }
{
    for sending in sends {
        sending_fits(sending);
    }
}

/// An event is of numbers and bytes.
fn event_fits<A: Allocator>(event: &Event<A>)
    ensures { IsEvent event.now }
{
    match event {
        Event::Connect => {}
        Event::Close(number) | Event::Route(number) | Event::Take(number) => number_fits(*number),
        Event::Admit(c, packet) => {
            number_fits(*c);
            packet_fits(packet);
        }
        Event::Originate(packet) => packet_fits(packet),
    }
}

/// A reply is of numbers and bytes.
fn reply_fits<A: Allocator>(reply: &Reply<A>)
    ensures { IsReply reply.now }
{
    match reply {
        Reply::Routed { sends, .. } | Reply::Sent(sends) => sends_fit(sends.as_slice()),
        Reply::Taken(packet) => packet_fits(packet),
        _ => number_fits_if(reply.number()),
    }
}

/// A step is of numbers and bytes.
fn step_fits<A: Allocator>(step: &Step<A>)
    ensures { IsStep step.now }
{
    number_fits(step.actor);
    event_fits(&step.event);
    reply_fits(&step.reply);
}

/// Each step is of numbers and bytes.
pub(crate) fn steps_fit<A: Allocator>(steps: &[Step<A>])
    ensures { AllByRecursion IsStep steps.now }
{
    for step in steps {
        step_fits(step);
    }
}

/// A servent is of numbers and bytes.
pub(crate) fn own_fits(own: &Own)
    ensures { IsOwn own.now }
{
    octets_fit(&own.servent.0);
    octets_fit(&own.ip);
    port_fits(own.port);
    number_fits(own.files);
    number_fits(own.kbytes);
}
