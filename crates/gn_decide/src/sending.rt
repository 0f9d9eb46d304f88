//! The packets that a reply sends, one after the other.

ghost use Rattle.std.specs.Prelude.{◌≡◌, ◌<◌, ◌+◌, ◌^◌, ◌&&◌, ◌∷◌, [], if◌then◌else◌, nat_lt, OnOk, reverse};
ghost use Rattle.std.specs.List.{fold};
ghost use Rattle.gn_wire.specs.Packet.{forward_of, is_expired};
ghost use Rattle.gn_rules.specs.History.{live};
ghost use Rattle.gn_rules.specs.Sending as sending;
ghost use Rattle.gn_decide.specs.Made.{made_packet};
ghost use Rattle.gn_decide.specs.Others.{to_others};
ghost use Rattle.gn_decide.specs.Planned.{outgoing_sends};

use crate::lookup::Lookup;
use crate::made::{Forwarded, Made};
use crate::outbox::Outbox;
use crate::plan::Outgoing;
use gn_rules::ConnId;
use gn_wire::{Descriptor, Kind};
use std::alloc::Allocator;

/// Sends a packet to a connection for which so many wait: queued where its output has room for one more.
fn send<A: Allocator, L: Lookup<A>, O: Outbox<A>>(
    past: &L,
    outbox: &mut O,
    to: ConnId,
    waiting: u32,
    packet: &Made<'_, A>,
) -> Result<(), O::Fault>
    ensures { OnOk result (outbox.new ≡ O.after outbox.old
        (record {
          to = to;
          packet = made_packet packet.now;
          queued = nat_lt waiting (L.settings past.now).numbers.out;
        })) }
{
    outbox.send(to, packet, waiting < past.config().numbers.out)
}

/// Sends a packet to the live connection at a place, where one stands there and it isn't the excepted one.
fn send_at<A: Allocator, L: Lookup<A>, O: Outbox<A>>(
    past: &L,
    outbox: &mut O,
    place: u32,
    except: ConnId,
    packet: &Made<'_, A>,
) -> Result<(), O::Fault>
    requires { place + 1 < 2 ^ 32 }
    ensures { OnOk result (fold O.after outbox.new (to_others (L.settings past.now) (reverse (L.steps past.now)) except
        (made_packet packet.now) (L.live_from past.now (place + 1)))
        ≡ fold O.after outbox.old (to_others (L.settings past.now) (reverse (L.steps past.now)) except
        (made_packet packet.now) (L.live_from past.now place))) }
{
    match past.live_at(place) {
        Some((c, waiting)) if c != except => send(past, outbox, c, waiting, packet),
        _ => Ok(()),
    }
}

/// Sends a packet to each live connection except one, ascending.
fn fan_out<A: Allocator, L: Lookup<A>, O: Outbox<A>>(
    past: &L,
    outbox: &mut O,
    except: ConnId,
    packet: &Made<'_, A>,
) -> Result<(), O::Fault>
    ensures { OnOk result (outbox.new ≡ fold O.after outbox.old
        (sending.fanout (L.settings past.now) (reverse (L.steps past.now)) except (made_packet packet.now))) }
{
    for place in 0..past.places() {
        send_at(past, outbox, place, except, packet)?;
    }
    Ok(())
}

/// Answers a Ping with the own Pong, where the connection that admitted it is live.
fn send_pong<A: Allocator, L: Lookup<A>, O: Outbox<A>>(
    past: &L,
    outbox: &mut O,
    origin: ConnId,
    packet: &Descriptor<A>,
) -> Result<(), O::Fault>
    ensures { OnOk result (outbox.new ≡ fold O.after outbox.old
        (if sending.is_ping packet.now.kind && live (reverse (L.steps past.now)) origin
        then sending.send (L.settings past.now) (reverse (L.steps past.now))
        (sending.own_pong (L.settings past.now).own packet.now) origin ∷ [] else [])) }
{
    if packet.kind() != Kind::Ping {
        return Ok(());
    }
    match past.output(origin) {
        None => Ok(()),
        Some((_, waiting)) => {
            let pong = Made::OwnPong(&past.config().own, packet);
            send(past, outbox, origin, waiting, &pong)
        }
    }
}

/// Sends the forward of a descriptor that isn't expired to each live connection except its own.
fn send_forwards<A: Allocator, L: Lookup<A>, O: Outbox<A>>(
    past: &L,
    outbox: &mut O,
    origin: ConnId,
    packet: &Descriptor<A>,
) -> Result<(), O::Fault>
    ensures { OnOk result (outbox.new ≡ fold O.after outbox.old
        (if is_expired (L.settings past.now).numbers.life packet.now then [] else sending.fanout (L.settings past.now)
        (reverse (L.steps past.now)) origin (forward_of (L.settings past.now).numbers.life packet.now))) }
{
    match Forwarded::of(past.config().numbers.life, packet) {
        None => Ok(()),
        Some(forward) => fan_out(past, outbox, origin, &Made::Forward(forward)),
    }
}

/// Sends the packets that are outgoing, in order, each queued where its connection's output has room. An `Err` is the
/// outbox's.
pub fn send_all<A: Allocator, L: Lookup<A>, O: Outbox<A>>(
    past: &L,
    outgoing: &Outgoing<'_, A>,
    outbox: &mut O,
) -> Result<(), O::Fault>
    ensures { OnOk result (outbox.new
        ≡ fold O.after outbox.old (outgoing_sends (L.settings past.now) (reverse (L.steps past.now)) outgoing.now)) }
{
    match outgoing {
        Outgoing::Nothing => Ok(()),
        Outgoing::One {
            to,
            waiting,
            packet,
            ..
        } => send(past, outbox, *to, *waiting, packet),
        Outgoing::Flood(origin, packet) => {
            send_pong(past, outbox, *origin, packet)?;
            send_forwards(past, outbox, *origin, packet)
        }
        Outgoing::Each(packet) => fan_out(past, outbox, 0, &Made::Itself(packet)),
    }
}
