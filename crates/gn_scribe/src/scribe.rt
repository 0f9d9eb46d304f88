//! Who writes a history while its router runs.

ghost use Rattle.std.specs.Prelude.{◌≡◌, ◌++◌, [], length, IfErr, OnErr, OnOk};
ghost use Rattle.rtrb.specs.Ring.{known_items, received};
ghost use Rattle.gn_printed.specs.Printed.{IsPrintFault};

use gn_io::{Block, Sink};
use gn_printed::{PrintFault, print_step, shut_at_fault};
use gn_room::Room;
use gn_rules::Step;
use rtrb::Consumer;
use std::alloc::{Allocator, Global};
use std::sync::Wait;
use std::thread::yield_now;

/// How often a scribe lets others run and looks for more steps before it writes what waits.
const LOOKS: u32 = 8;

/// As many steps as it took since it wrote what waited, before it looks no more.
const UNWRITTEN: usize = 64;

/// How many steps it takes before it makes room for as many.
const ROOM_AT_ONCE: usize = 256;

/// Who is told of steps that were taken.
pub(crate) trait Notify {
    /// The step at this place of those that have come was taken.
    fn taken(&self, place: usize);
}

/// Nobody makes steps any more.
#[derive(Drop)]
pub(crate) struct Nobody;

impl Notify for Nobody {
    fn taken(&self, _place: usize) {}
}

/// Those who wait for room.
#[derive(Drop)]
struct Waiters<'a, R> {
    rt: &'a R,
    room: &'a Room,
}

impl<'a, R: Wait> Notify for Waiters<'a, R> {
    fn taken(&self, place: usize) {
        if place % ROOM_AT_ONCE == ROOM_AT_ONCE - 1 {
            self.room.took(self.rt, ROOM_AT_ONCE as u64);
        }
    }
}

/// Takes the steps of a run out of their ring, and writes their lines in blocks. It keeps none: in memory is no more than a block and a
/// line of the text.
#[derive(Drop)]
pub struct Scribe<A: Allocator = Global> {
    pub(crate) steps: Consumer<Step<A>, A>,
    pub(crate) block: Block<A>,
    /// Whether it took a step.
    pub(crate) is_begun: bool,
}

impl<A: Allocator + Copy> Scribe<A> {
    ghost use Rattle.gn_io.specs.Streams.{SinkState};
    ghost use Rattle.gn_scribe.specs.Written.{HasBroken, HasWritten, KnowsBegun};

    /// A scribe of a ring of which no step was taken yet, with bytes that wait to be written before the first.
    pub fn new(steps: Consumer<Step<A>, A>, block: Block<A>) -> Self
        requires { received steps ≡ [] }
        ensures steps { result.steps ≡ steps }
        ensures block { result.block ≡ block }
        ensures begun { KnowsBegun result }
    {
        Scribe {
            steps,
            block,
            is_begun: false,
        }
    }

    /// Takes so many steps, which have come, and writes their lines. Who waits for room is told while it goes on: a slow sink holds
    /// nobody until all are written.
    pub(crate) fn write_known<N: Notify, W: Sink>(
        &mut self,
        count: usize,
        waiters: &N,
        sink: &mut W,
    ) -> Result<(), PrintFault>
        requires { count ≡ length (known_items self.old.steps) }
        ensures ok { OnOk result (HasWritten self.old self.new (W.state sink.old) (W.state sink.new)) }
        ensures all { OnOk result (known_items self.new.steps ≡ []) }
        ensures ahead { received self.new.steps ++ known_items self.new.steps
            ≡ received self.old.steps ++ known_items self.old.steps }
        ensures err { OnErr result (HasBroken self.old self.new (W.state sink.old) (W.state sink.new)) }
        ensures cause { IfErr result (λ fault. IsPrintFault fault (W.state sink.old) (W.state sink.new)) }
    {
        for place in 0..count {
            let step = self.steps.pop_known();
            self.is_begun = true;
            let printed = print_step(&step, &mut self.block, sink);
            drop(step);
            printed?;
            waiters.taken(place);
        }
        Ok(())
    }

    /// Takes the steps that have come by now, and writes their lines. How many they were.
    fn write_come<N: Notify, W: Sink>(
        &mut self,
        waiters: &N,
        sink: &mut W,
    ) -> Result<usize, PrintFault>
        ensures ok { OnOk result (HasWritten self.old self.new (W.state sink.old) (W.state sink.new)) }
        ensures err { OnErr result (HasBroken self.old self.new (W.state sink.old) (W.state sink.new)) }
        ensures cause { IfErr result (λ fault. IsPrintFault fault (W.state sink.old) (W.state sink.new)) }
    {
        let count = self.steps.slots();
        self.write_known(count, waiters, sink)?;
        Ok(count)
    }

    /// Writes all that waits, once a step was taken: of a run without steps nothing is written here.
    #[tactic(auto, using(crate::proofs::WrittenLemmas::written_none))]
    fn write_waiting<W: Sink>(
        &mut self,
        unwritten: &mut usize,
        sink: &mut W,
    ) -> Result<(), PrintFault>
        ensures ok { OnOk result (HasWritten self.old self.new (W.state sink.old) (W.state sink.new)) }
        ensures err { OnErr result (HasBroken self.old self.new (W.state sink.old) (W.state sink.new)) }
        ensures cause { IfErr result (λ fault. IsPrintFault fault (W.state sink.old) (W.state sink.new)) }
    {
        if !self.is_begun {
            return Ok(());
        }
        *unwritten = 0;
        self.block.write_rest(sink)?;
        Ok(())
    }

    /// Lets other threads run and looks again, so many times at most, until a step has come. Whether one has.
    fn has_more(&mut self, looks: u32) -> bool
        ensures { (k : SinkState) → HasWritten self.old self.new k k }
    {
        for _ in 0..looks {
            yield_now();
            if !self.steps.is_empty() {
                return true;
            }
        }
        false
    }

    /// Takes the steps that have come, and writes their lines; where no more come soon, or so many were taken since what waited was
    /// written, writes what waits, and waits for one. Whether no more will come.
    fn turn<R: Wait, W: Sink>(
        &mut self,
        rt: &R,
        room: &Room,
        unwritten: &mut usize,
        sink: &mut W,
    ) -> Result<bool, PrintFault>
        ensures ok { OnOk result (HasWritten self.old self.new (W.state sink.old) (W.state sink.new)) }
        ensures err { OnErr result (HasBroken self.old self.new (W.state sink.old) (W.state sink.new)) }
        ensures cause { IfErr result (λ fault. IsPrintFault fault (W.state sink.old) (W.state sink.new)) }
    {
        let is_over = room.is_over();
        let count = self.write_come(&Waiters { rt, room }, sink)?;
        room.took(rt, (count % ROOM_AT_ONCE) as u64);
        if is_over {
            return Ok(count == 0);
        }
        *unwritten = unwritten.saturating_add(count);
        let looks = if *unwritten < UNWRITTEN { LOOKS } else { 0 };
        if self.has_more(looks) {
            return Ok(false);
        }
        self.write_waiting(unwritten, sink)?;
        room.await_step(rt);
        Ok(false)
    }

    /// Takes the steps as they come, and writes their lines, until no more will come. The first are written at once.
    fn write_on<R: Wait, W: Sink>(
        &mut self,
        rt: &R,
        room: &Room,
        sink: &mut W,
    ) -> Result<(), PrintFault>
        ensures ok { OnOk result (HasWritten self.old self.new (W.state sink.old) (W.state sink.new)) }
        ensures err { OnErr result (HasBroken self.old self.new (W.state sink.old) (W.state sink.new)) }
        ensures cause { IfErr result (λ fault. IsPrintFault fault (W.state sink.old) (W.state sink.new)) }
    {
        let mut unwritten = UNWRITTEN;
        for _ in rt.forever() {
            if self.turn(rt, room, &mut unwritten, sink)? {
                return Ok(());
            }
        }
        unreachable!()
    }

    /// Takes the steps as they come, and writes their lines, until no more will come. What waits is written before it waits, once
    /// there was a step. At an `Err` the room is shut.
    pub fn follow<R: Wait, W: Sink>(
        &mut self,
        rt: &R,
        room: &Room,
        sink: &mut W,
    ) -> Result<(), PrintFault>
        ensures ok { OnOk result (HasWritten self.old self.new (W.state sink.old) (W.state sink.new)) }
        ensures err { OnErr result (HasBroken self.old self.new (W.state sink.old) (W.state sink.new)) }
        ensures cause { IfErr result (λ fault. IsPrintFault fault (W.state sink.old) (W.state sink.new)) }
    {
        let written = self.write_on(rt, room, sink);
        shut_at_fault(written, rt, room)
    }
}
