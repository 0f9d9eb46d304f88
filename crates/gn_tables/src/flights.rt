//! The descriptors in flight, by ticket.

ghost use Rattle.std.specs.Prelude.{◌≡◌, ◌<◌, ◌≤◌, ℕ, None, cond, length, nat_eq, IfNone, IsTrue, OnErr, OnOk};
ghost use Rattle.std.specs.FinMap as map;
ghost use Rattle.std.specs.Map.{lookup};
ghost use Rattle.std.specs.Option.{option_copied, option_map};
ghost use Rattle.gn_tables.specs.Flying.{IsAt, with_flight, without_flight};
ghost use Rattle.gn_tables.specs.Origins.{flights_from};

use crate::counts::{Counts, count, lower, raise};
use gn_wire::Descriptor;
use indexmap::IndexMap;
use std::alloc::{AllocError, Allocator, Global};
use std::hash::{BuildHasherDefault, FoldHasher};
use std::marker::Model;

/// A descriptor in flight, and the connection that it came from.
#[derive(Drop)]
pub struct Flight<A: Allocator = Global> {
    pub from: u32,
    pub descriptor: Descriptor<A>,
}

/// The descriptors in flight, by ticket.
type ByTicket<A> = IndexMap<u32, Flight<A>, BuildHasherDefault<FoldHasher>, A>;

/// Whether the flight at this place is the ticket's.
fn is_at<A: Allocator + Copy>(flights: &ByTicket<A>, place: usize, ticket: u32) -> bool
    ensures { IsTrue result → IsAt flights.now.entries place ticket }
{
    match flights.get_index(place) {
        Some((key, _flight)) => *key == ticket,
        None => false,
    }
}

/// The flight of the ticket, and its place.
fn flight_of<A: Allocator + Copy>(flights: &ByTicket<A>, ticket: u32) -> Option<(usize, &Flight<A>)>
    ensures { option_map (λ r. r.1.now) result ≡ lookup (nat_eq ticket) flights.now.entries }
{
    let (place, _, flight) = flights.get_full(&ticket)?;
    Some((place, flight))
}

/// The flight of the ticket, which is looked for at the place `near` first, and its place.
fn flight_near<A: Allocator + Copy>(
    flights: &ByTicket<A>,
    near: usize,
    ticket: u32,
) -> Option<(usize, &Flight<A>)>
    ensures { option_map (λ r. r.1.now) result ≡ lookup (nat_eq ticket) flights.now.entries }
{
    match flights.get_index(near) {
        Some((key, flight)) if *key == ticket => Some((near, flight)),
        _ => flight_of(flights, ticket),
    }
}

/// Takes the flight of the ticket out, which is looked for at the place `near` first.
fn take_out<A: Allocator + Copy>(
    flights: &mut ByTicket<A>,
    near: usize,
    ticket: u32,
) -> Option<Flight<A>>
    ensures value { result ≡ lookup (nat_eq ticket) flights.old.entries }
    ensures others { (q : ℕ) → lookup (nat_eq q) flights.new.entries
        ≡ cond (nat_eq ticket q) None (lookup (nat_eq q) flights.old.entries) }
    ensures few { length flights.new.entries ≤ length flights.old.entries }
    ensures unchanged { IfNone result (flights.new.entries ≡ flights.old.entries) }
{
    if !is_at(flights, near, ticket) {
        return flights.swap_remove(&ticket);
    }
    match flights.swap_remove_index(near) {
        Some((_, flight)) => Some(flight),
        None => unreachable!(),
    }
}

/// The descriptors in flight, by ticket, and how many of them each connection sent, whether or not it is still there. Tickets and
/// connections are hashed with a fixed seed. It grows as descriptors are added.
pub struct Flights<A: Allocator + Copy = Global> {
    most: u32,
    flights: ByTicket<A>,
    counts: Counts<A>,
}

impl<A: Allocator + Copy> Drop for Flights<A> {
    fn drop(self) {
        let Flights {
            most: _,
            flights: _,
            counts: _,
        } = self;
    }
}

impl<A: Allocator + Copy> Model for Flights<A> {
    ghost use Rattle.std.specs.Prelude.{◌≤◌, length};
    ghost use Rattle.std.specs.FinMap as map;
    ghost use Rattle.gn_tables.specs.Flying.{Flying, flying_code};
    ghost use Rattle.gn_tables.specs.declared.flights.Flight.{Flight};

    ghost Value = { Flying (Flight A) };

    ghost use Rattle.std.specs.Coded.{codes};
    ghost use Rattle.gn_tables.specs.contracts.flights.Flight as flight;

    ghost coded = { flying_code (Prim.hlevel codes) };

    ghost view = { λ f. record { flights = map.from_entries f.flights.entries; most = f.most } };

    ghost use Rattle.gn_tables.specs.Origins.{AreCounts};

    ghost invariant = { λ f. (length f.flights.entries ≤ f.most) × (f.most ≤ 4096)
        × AreCounts f.counts.entries (record { flights = map.from_entries f.flights.entries; most = f.most }) };
}

impl<A: Allocator + Copy> Flights<A> {
    /// Nothing in flight, and at most `most` descriptors at once: 1 to 4,096. It takes no memory yet.
    pub fn new(alloc: A, most: u32) -> Self
        requires positive { 0 < most }
        requires limit { most ≤ 4096 }
        ensures { result ≡ record { flights = map.empty; most = most } }
    {
        Flights {
            most,
            flights: IndexMap::new(alloc),
            counts: IndexMap::new(alloc),
        }
    }

    /// How many are in flight.
    pub fn len(&self) -> u32
        ensures value { result ≡ map.len self.now.flights }
        ensures few { result ≤ self.now.most }
    {
        self.flights.len() as u32
    }

    /// How many of those in flight came from a connection, live or not. It takes no memory.
    pub fn of(&self, c: u32) -> u32
        ensures { result ≡ flights_from c self.now }
    {
        count(&self.counts, c)
    }

    /// The flight of the ticket, and its place.
    pub fn find(&self, ticket: u32) -> Option<(usize, &Flight<A>)>
        ensures { option_map (λ r. r.1.now) result ≡ map.get self.now.flights ticket }
    {
        flight_of(&self.flights, ticket)
    }

    /// As `find`, of a ticket whose flight is looked for at the place `near` first.
    pub fn find_near(&self, near: usize, ticket: u32) -> Option<(usize, &Flight<A>)>
        ensures { option_map (λ r. r.1.now) result ≡ map.get self.now.flights ticket }
    {
        flight_near(&self.flights, near, ticket)
    }

    /// The flight of the ticket.
    pub fn get(&self, ticket: u32) -> Option<&Flight<A>>
        ensures { option_copied result ≡ map.get self.now.flights ticket }
    {
        self.flights.get(&ticket)
    }

    /// Adds a descriptor under a new ticket. An `Err` is out of memory: the descriptor is dropped, and nothing changes.
    pub fn add(
        &mut self,
        ticket: u32,
        from: u32,
        descriptor: Descriptor<A>,
    ) -> Result<(), AllocError>
        requires few { map.len self.old.flights < self.old.most }
        requires fresh { map.get self.old.flights ticket ≡ None }
        ensures ok { OnOk result (self.new
            ≡ with_flight ticket (record { from = from; descriptor = descriptor }) self.old) }
        ensures err { OnErr result (self.new ≡ self.old) }
    {
        self.counts.reserve(1)?;
        self.flights.insert(ticket, Flight { from, descriptor })?;
        raise(&mut self.counts, from);
        Ok(())
    }

    /// Takes the flight of the ticket out.
    pub fn finish(&mut self, ticket: u32) -> Option<Flight<A>>
        ensures value { result ≡ map.get self.old.flights ticket }
        ensures rest { self.new ≡ without_flight ticket self.old }
    {
        self.finish_near(0, ticket)
    }

    /// As `finish`, of a ticket whose flight is looked for at the place `near` first.
    pub fn finish_near(&mut self, near: usize, ticket: u32) -> Option<Flight<A>>
        ensures value { result ≡ map.get self.old.flights ticket }
        ensures rest { self.new ≡ without_flight ticket self.old }
    {
        let flight = take_out(&mut self.flights, near, ticket)?;
        lower(&mut self.counts, flight.from);
        Some(flight)
    }
}
