//! The live connections, ascending, each with the packets that wait for it.

ghost use Rattle.std.specs.Prelude.{◌≡◌, ◌<◌, ◌≤◌, [], length, nat_eq, true, false, slice_get, Some, IfErr, IfOk, IsTrue, OnErr, OnOk};
ghost use Rattle.std.specs.List.{All, position};
ghost use Rattle.std.specs.List.Sorted.{IsStrictlyIncreasing};
ghost use Rattle.std.specs.Map.{keys_of};
ghost use Rattle.std.specs.Option.{option_copied, option_map};
ghost use Rattle.gn_tables.specs.Outputs.{AreOutputs, first_of, has_room, joined, left, output_of, popped, pushed};

use circular_buffer::HeapCircularBuffer;
use gn_kept::{Output, put};
use gn_wire::Descriptor;
use std::alloc::{AllocError, Allocator, Global};
use std::marker::Model;

/// A connection, and the ring of the packets that wait for it.
type Row<A> = (u32, Output<A>);

/// The live connections, ascending, each with the packets that wait for it, the first to go first. A connection is found by
/// binary search. Its ring takes its memory at once when it is added, 64 bytes for each packet that may wait: 262,144 bytes for
/// 4,096 packets, and 67,108,864 bytes for 256 connections of these.
pub struct Neighbours<A: Allocator + Copy = Global> {
    alloc: A,
    most: u32,
    room: u32,
    rows: Vec<Row<A>, A>,
}

impl<A: Allocator + Copy> Drop for Neighbours<A> {
    fn drop(self) {
        let Neighbours {
            alloc: _,
            most: _,
            room: _,
            rows: _,
        } = self;
    }
}

impl<A: Allocator + Copy> Model for Neighbours<A> {
    ghost use Rattle.gn_tables.specs.Outputs.{AreRings, Outputs, outputs_of};

    ghost Value = { Outputs };

    ghost view = { λ n. outputs_of n.most n.room n.rows.items };

    ghost invariant = { λ n. AreRings n.rows.items n.most n.room };
}

/// The place of a connection among the rows, which are ascending, by binary search.
fn search_row<A: Allocator>(rows: &[Row<A>], connection: u32) -> Option<usize>
    requires { IsStrictlyIncreasing (keys_of rows.now) }
    ensures { result ≡ position (λ r. nat_eq connection r.0) rows.now }
{
    rows.binary_search_by_key(&connection, |row| row.0).ok()
}

/// Whether the connection stands at a place among the rows, which are ascending.
fn stands_at<A: Allocator>(rows: &[Row<A>], place: usize, connection: u32) -> bool
    requires { IsStrictlyIncreasing (keys_of rows.now) }
    ensures { IsTrue result → Some place ≡ position (λ r. nat_eq connection r.0) rows.now }
{
    match rows.get(place) {
        Some(row) => row.0 == connection,
        None => false,
    }
}

/// The place of a connection among the rows, which are ascending. They are searched where it isn't at `near`.
fn place_of<A: Allocator>(rows: &[Row<A>], near: usize, connection: u32) -> Option<usize>
    requires { IsStrictlyIncreasing (keys_of rows.now) }
    ensures { result ≡ position (λ r. nat_eq connection r.0) rows.now }
{
    if stands_at(rows, near, connection) {
        return Some(near);
    }
    find_row(rows, connection)
}

/// The place of a connection among the rows, which are ascending. It is looked for first where it stands as long as no connection
/// before it has closed; else the rows are searched.
fn find_row<A: Allocator>(rows: &[Row<A>], connection: u32) -> Option<usize>
    requires { IsStrictlyIncreasing (keys_of rows.now) }
    ensures { result ≡ position (λ r. nat_eq connection r.0) rows.now }
{
    let near = connection.saturating_sub(1) as usize;
    if stands_at(rows, near, connection) {
        return Some(near);
    }
    search_row(rows, connection)
}

impl<A: Allocator + Copy> Neighbours<A> {
    /// No neighbours yet; at most `most` of them, 1 to 256, and `room` packets for each, 1 to 4,096. An `Err` is out of
    /// memory.
    pub fn new(alloc: A, most: u32, room: u32) -> Result<Self, AllocError>
        requires some { 0 < most }
        requires few { most ≤ 256 }
        requires positive { 0 < room }
        requires limit { room ≤ 4096 }
        ensures { IfOk result (λ n. n ≡ record { rows = []; most = most; room = room }) }
    {
        Ok(Neighbours {
            alloc,
            most,
            room,
            rows: Vec::with_capacity(alloc, most as usize)?,
        })
    }

    /// How many neighbours there are. What every table keeps is stated here too.
    pub fn len(&self) -> u32
        ensures value { result ≡ length self.now.rows }
        ensures kept { AreOutputs self.now }
    {
        self.rows.len() as u32
    }

    /// The connection at this place, counted from 0, of those that are there, ascending.
    pub fn number(&self, index: u32) -> Option<u32>
        ensures { result ≡ slice_get (keys_of self.now.rows) index }
    {
        let (connection, _) = self.rows.get(index as usize)?;
        Some(*connection)
    }

    /// The connection at this place, counted from 0, of those that are there, ascending, and how many packets wait for it.
    pub fn at(&self, index: u32) -> Option<(u32, u32)>
        ensures { result ≡ option_map (λ r. (r.0, length r.1)) (slice_get self.now.rows index) }
    {
        let (connection, ring) = self.rows.get(index as usize)?;
        Some((*connection, ring.len() as u32))
    }

    /// The place of the connection, which is looked for at `near` first; `near` where it isn't there.
    pub(crate) fn place_near(&self, near: usize, connection: u32) -> usize {
        place_of(&self.rows, near, connection).unwrap_or(near)
    }

    /// How many packets wait for the connection. `None` where it isn't there.
    pub fn waiting(&self, connection: u32) -> Option<u32>
        ensures { result ≡ option_map length (output_of connection self.now) }
    {
        let (_, waiting) = self.output(connection)?;
        Some(waiting)
    }

    /// The connection's place, and how many packets wait for it. `None` where it isn't there.
    pub fn output(&self, connection: u32) -> Option<(usize, u32)>
        ensures { option_map (λ r. r.1) result ≡ option_map length (output_of connection self.now) }
    {
        let place = find_row(&self.rows, connection)?;
        Some((place, self.rows[place].1.len() as u32))
    }

    /// The packet that has waited longest for the connection. `None` where there is none, or no such connection.
    pub fn first(&self, connection: u32) -> Option<&Descriptor<A>>
        ensures { option_copied result ≡ first_of connection self.now }
    {
        let place = find_row(&self.rows, connection)?;
        self.rows[place].1.front()
    }

    /// The connection's place, and the packet that has waited longest for it, where one waits. `None` where it isn't there.
    pub fn front(&self, connection: u32) -> Option<(usize, Option<&Descriptor<A>>)>
        ensures { option_map (λ r. option_copied r.1) result
            ≡ option_map (λ packets. slice_get packets 0) (output_of connection self.now) }
    {
        let place = find_row(&self.rows, connection)?;
        Some((place, self.rows[place].1.front()))
    }

    /// Adds a connection that is greater than all there, and makes the room that its packets fill. An `Err` is out of
    /// memory, and changes nothing.
    pub fn add(&mut self, connection: u32) -> Result<(), AllocError>
        requires greater { All (λ r. r.0 < connection) self.old.rows }
        requires few { length self.old.rows < self.old.most }
        ensures ok { OnOk result (self.new ≡ joined connection self.old) }
        ensures err { OnErr result (self.new ≡ self.old) }
    {
        let ring = HeapCircularBuffer::with_capacity(self.alloc, self.room as usize)?;
        self.rows.push((connection, ring))?;
        Ok(())
    }

    /// Takes the connection out, and says how many packets were discarded with it. `None` where it isn't there.
    pub fn remove(&mut self, connection: u32) -> Option<u32>
        ensures value { result ≡ option_map length (output_of connection self.old) }
        ensures rest { self.new ≡ left connection self.old }
    {
        self.remove_near(0, connection)
    }

    /// As `remove`, of a connection that is looked for at the place `near` first.
    pub fn remove_near(&mut self, near: usize, connection: u32) -> Option<u32>
        ensures value { result ≡ option_map length (output_of connection self.old) }
        ensures rest { self.new ≡ left connection self.old }
    {
        let place = place_of(&self.rows, near, connection)?;
        let (_, ring) = self.rows.remove(place);
        Some(ring.len() as u32)
    }

    /// Puts a packet after the others of the connection. An `Err` hands it back: the connection isn't there, or its output
    /// queue is full. It changes nothing.
    pub fn push(&mut self, connection: u32, packet: Descriptor<A>) -> Result<(), Descriptor<A>>
        ensures ok { OnOk result
            ((has_room connection self.old ≡ true) × (self.new ≡ pushed connection packet self.old)) }
        ensures err { IfErr result (λ d.
            (has_room connection self.old ≡ false) × (d ≡ packet) × (self.new ≡ self.old)) }
    {
        self.push_near(0, connection, packet)
    }

    /// As `push`, to a connection that is looked for at the place `near` first.
    pub fn push_near(
        &mut self,
        near: usize,
        connection: u32,
        packet: Descriptor<A>,
    ) -> Result<(), Descriptor<A>>
        ensures ok { OnOk result
            ((has_room connection self.old ≡ true) × (self.new ≡ pushed connection packet self.old)) }
        ensures err { IfErr result (λ d.
            (has_room connection self.old ≡ false) × (d ≡ packet) × (self.new ≡ self.old)) }
    {
        let Some(place) = place_of(&self.rows, near, connection) else {
            return Err(packet);
        };
        put(&mut self.rows[place].1, packet)
    }

    /// Takes the packet that has waited longest for the connection. `None` where there is none, or no such connection.
    pub fn pop(&mut self, connection: u32) -> Option<Descriptor<A>>
        ensures first { result ≡ first_of connection self.old }
        ensures rest { self.new ≡ popped connection self.old }
    {
        self.pop_near(0, connection)
    }

    /// As `pop`, of a connection that is looked for at the place `near` first.
    pub fn pop_near(&mut self, near: usize, connection: u32) -> Option<Descriptor<A>>
        ensures first { result ≡ first_of connection self.old }
        ensures rest { self.new ≡ popped connection self.old }
    {
        let place = place_of(&self.rows, near, connection)?;
        self.rows[place].1.pop_front()
    }
}
