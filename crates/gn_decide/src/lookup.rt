//! What a router looks up of the steps before an event.

ghost use Rattle.std.specs.Prelude.{◌≡◌, ◌<◌, ◌+◌, ◌^◌, ◌++◌, [], ℕ, if◌then◌else◌, IfSome, List, None, Some, length, option_map, reverse};
ghost use Rattle.std.specs.List.{slice_get};
ghost use Rattle.std.specs.Option.{option_copied, option_to_list};
ghost use Rattle.gn_rules.specs.Flight.{flying, flying_from, in_flight, tickets};
ghost use Rattle.gn_rules.specs.History.{connections, live, live_connections};
ghost use Rattle.gn_rules.specs.Output.{out};
ghost use Rattle.gn_rules.specs.Servents as servents;
ghost use Rattle.gn_rules.specs.SeenEntries as seen_entries;
ghost use Rattle.gn_rules.specs.declared.config.Config.{Config};
ghost use Rattle.gn_rules.specs.declared.receipt.Step.{Step};
ghost use Rattle.gn_decide.specs.Seen.{admission_seen};

use gn_rules::{Config, ConnId, Step, Ticket};
use gn_wire::{Descriptor, Guid, Key};
use std::alloc::Allocator;

/// What the steps before an event left, each reader by one search of the steps or one look into a table.
pub trait Lookup<A: Allocator> {
    /// The configuration.
    ghost settings: { Self → Config };

    /// The steps, in order.
    ghost steps: { Self → List (Step A) };

    /// The live connections that stand at a place or after it, ascending.
    ghost live_from: { Self → ℕ → List ℕ };

    /// The configuration.
    fn config(&self) -> &Config
        ensures { result.now ≡ settings self.now };

    /// How many steps there are.
    fn step_count(&self) -> u32
        ensures { result ≡ length (reverse (steps self.now)) };

    /// Whether the connection is live.
    fn is_live(&self, c: ConnId) -> bool
        ensures { result ≡ live (reverse (steps self.now)) c };

    /// How many connections are live.
    fn live_count(&self) -> u32
        ensures { result ≡ length (live_connections (reverse (steps self.now))) };

    /// How many places there are at which a live connection may stand.
    fn places(&self) -> u32
        ensures all { live_from self.now 0 ≡ live_connections (reverse (steps self.now)) }
        ensures end { live_from self.now result ≡ [] };

    /// The live connection at a place, where one stands there, and how many packets wait for it.
    fn live_at(&self, place: u32) -> Option<(ConnId, u32)>
        requires { place + 1 < 2 ^ 32 }
        ensures at { live_from self.now place
            ≡ option_to_list (option_map (λ r. r.0) result) ++ live_from self.now (place + 1) }
        ensures waiting { IfSome result (λ r. r.1 ≡ length (out (reverse (steps self.now)) r.0)) };

    /// The number that the next connection gets, where there is room for a step.
    fn next_connection(&self) -> ConnId
        ensures { result ≡ 1 + length (connections (reverse (steps self.now))) };

    /// How many tickets are in flight.
    fn flights(&self) -> u32
        ensures { result ≡ length (flying (reverse (steps self.now))) };

    /// How many tickets that the connection admitted are in flight, whether or not it is still live.
    fn flights_of(&self, c: ConnId) -> u32
        ensures { result ≡ length (flying_from (reverse (steps self.now)) c) };

    /// The ticket that the next admission gets.
    fn next_ticket(&self) -> Ticket
        ensures { result ≡ length (tickets (reverse (steps self.now))) };

    /// What is in flight under the ticket: its place, the connection that admitted it, and the descriptor.
    fn flight(&self, ticket: Ticket) -> Option<(usize, ConnId, &Descriptor<A>)>
        ensures { admission_seen (option_map (λ r. (r.1, r.2)) result)
            ≡ in_flight (reverse (steps self.now)) ticket };

    /// Where a descriptor of this key came from, where it is remembered; 0 is the local servent.
    fn source(&self, key: &Key) -> Option<ConnId>
        ensures { result ≡ seen_entries.source (settings self.now) (reverse (steps self.now)) key.now };

    /// The connection that leads to a servent, where one is known.
    fn servent_route(&self, servent: &Guid) -> Option<ConnId>
        ensures { result ≡ servents.servent_route (settings self.now) (reverse (steps self.now)) servent.now };

    /// The place of a live connection, and how many packets wait for it. `None` where it isn't live.
    fn output(&self, c: ConnId) -> Option<(usize, u32)>
        ensures { option_map (λ r. r.1) result ≡ (if live (reverse (steps self.now)) c
            then Some (length (out (reverse (steps self.now)) c)) else None) };

    /// The place of a live connection, and the packet that has waited longest for it, where one waits. `None` where it isn't live.
    fn front(&self, c: ConnId) -> Option<(usize, Option<&Descriptor<A>>)>
        ensures { option_map (λ r. option_copied r.1) result ≡ (if live (reverse (steps self.now)) c
            then Some (slice_get (out (reverse (steps self.now)) c) 0) else None) };
}
