//! What a call of each table takes, with few entries and with many: it doesn't grow with their number.

ghost use Rattle.std.specs.Prelude.{◌≡◌, ◌<◌, ◌≤◌};

use crate::setup::{numbered, ping, tell};
use gn_kept::SeenTable;
use gn_tables::{Flights, Neighbours, ServentTable};
use gn_wire::Kind;
use std::alloc::Global;
use std::io;
use std::rt::Runtime;
use std::time::Instant;

/// A table as it is measured.
trait Measured {
    /// The calls that one more entry takes, of this number.
    fn turn(&mut self, number: u32) -> io::Result<()>;
}

/// Each ID is new, and is kept.
impl Measured for SeenTable {
    fn turn(&mut self, number: u32) -> io::Result<()> {
        let id = numbered(number);
        if self.source(Kind::Ping, &id).is_none() {
            self.keep(Kind::Ping, id, number)?;
        }
        Ok(())
    }
}

/// Each servent is new, and is learned.
impl Measured for ServentTable {
    fn turn(&mut self, number: u32) -> io::Result<()> {
        self.learn(numbered(number), 1)?;
        Ok(())
    }
}

/// The first packet of an output queue is put after the others again.
impl Measured for Neighbours {
    fn turn(&mut self, _number: u32) -> io::Result<()> {
        if let Some(packet) = self.pop(1) {
            let _ = self.push(1, packet);
        }
        Ok(())
    }
}

/// What so many calls of a table with so many entries take.
fn time<T: Measured + Drop, R: Runtime>(
    rt: &R,
    what: &str,
    mut table: T,
    size: u32,
    calls: u32,
) -> io::Result<()> {
    let start = Instant::now(rt)?;
    for call in 0..calls {
        table.turn(size.wrapping_add(call))?;
    }
    tell(rt, what, size, start.elapsed(rt)?, u64::from(calls))
}

/// The same of a table that is filled first.
fn time_filled<T: Measured + Drop, R: Runtime>(
    rt: &R,
    what: &str,
    mut table: T,
    size: u32,
    calls: u32,
) -> io::Result<()> {
    for number in 0..size {
        table.turn(number)?;
    }
    time(rt, what, table, size, calls)
}

/// An output queue that is full.
fn full_output(alloc: Global, size: u32) -> io::Result<Neighbours>
    requires { (0 < size) × (size ≤ 4096) }
{
    let mut neighbours = Neighbours::new(alloc, 1, size)?;
    neighbours.add(1)?;
    for number in 0..size {
        let _ = neighbours.push(1, ping(number)?);
    }
    Ok(neighbours)
}

/// So many flights, from this ticket on, each in the place of the one that came so many before it.
fn next_flights(flights: &mut Flights, size: u32, first: u32, count: u32) -> io::Result<()>
    requires { flights.old.most ≡ size }
    ensures { flights.new.most ≡ size }
{
    for ticket in first..first.saturating_add(count) {
        let _ = flights.finish(ticket.wrapping_sub(size));
        if flights.len() < size && flights.get(ticket).is_none() {
            flights.add(ticket, 1, ping(ticket)?)?;
        }
    }
    Ok(())
}

/// The oldest flight of a full table, and one more under a new ticket.
fn time_flights<R: Runtime>(rt: &R, alloc: Global, size: u32, calls: u32) -> io::Result<()>
    requires { (0 < size) × (size ≤ 4096) }
{
    let mut flights = Flights::new(alloc, size);
    next_flights(&mut flights, size, 0, size)?;
    let start = Instant::now(rt)?;
    next_flights(&mut flights, size, size, calls)?;
    let taken = start.elapsed(rt)?;
    tell(rt, "finish, get, add of", size, taken, u64::from(calls))
}

/// So many calls of each table, with so many keys or so many packets in it.
fn time_tables<R: Runtime>(
    rt: &R,
    alloc: Global,
    keys: u32,
    packets: u32,
    calls: u32,
) -> io::Result<()>
    requires keys { (0 < keys) × (keys ≤ 65536) }
    requires packets { (0 < packets) × (packets ≤ 4096) }
{
    let seen = SeenTable::new(alloc, keys)?;
    time_filled(rt, "source, keep of", seen, keys, calls)?;
    let servents = ServentTable::new(alloc, keys)?;
    time_filled(rt, "learn of", servents, keys, calls)?;
    let output = full_output(alloc, packets)?;
    time(rt, "pop, push of", output, packets, calls)?;
    time_flights(rt, alloc, packets, calls)
}

/// Each table with few entries and with many, and so many calls on it.
pub(crate) fn measure_tables<R: Runtime>(rt: &R, alloc: Global, calls: u32) -> io::Result<()> {
    time_tables(rt, alloc, 1_000, 1_000, calls)?;
    time_tables(rt, alloc, 65_536, 4_096, calls)?;
    println!(rt; "tables: {calls} calls each")
}
