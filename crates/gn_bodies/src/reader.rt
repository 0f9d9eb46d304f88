//! The body of a reader.

ghost use Rattle.std.specs.Prelude.{◌≡◌, ◌++◌, [], ℕ, List, None, false, true, IfOk, OnOk};
ghost use Rattle.gn_shake.specs.declared.role.Role.{Role};
ghost use Rattle.gn_links.specs.Halves.{IsNewReader, IsReadFrom};
ghost use Rattle.gn_bodies.specs.Admitting.{GoesOn, HasSameNumbers, StaysSettled};
ghost use Rattle.gn_bodies.specs.Done.{IsReaderDone, ReaderLeaves, ended, half_of, reader_ended};
ghost use Rattle.gn_bodies.specs.Events.{connection_of, link_events};
ghost use Rattle.gn_bodies.specs.Jobs.{jobs_left};
ghost use Rattle.gn_bodies.specs.ReaderRows.{HasClosedAt, ReaderDid, ReaderRow, closes};
ghost use Rattle.gn_bodies.specs.Reading.{EndsReading, HasTakenPiece, IsTaken, OpenDid, ReadRow};

use crate::caller::Caller;
use crate::ends::{BodyFault, ReaderEnd};
use crate::handler::ReaderHandler;
use crate::piece::{Piece, Reading};
use gn_actors::Named;
use gn_hub::{Actor, Batch, FoundClosed};
use gn_links::{Gate, Half, LinkReader};
use gn_rules::{ConnId, RouterCore};
use gn_shake::{Role, Shake};
use gn_stage::{Intake, IntakeHome, Site};
use std::alloc::{Allocator, Global};
use std::sync::Wait;
use std::sync::ledger::Ledger;

/// What the body of a reader gives back. `B` stands for the run, and names its ledger and its stage.
#[derive(Drop)]
pub struct ReaderDone<Rd, B: Site + Ledger + Named, A: Allocator = Global> {
    pub actor: Actor<B, A>,
    pub role: Role,
    pub reader: Rd,
    pub home: IntakeHome<B, A>,
    pub end: Result<ReaderEnd, BodyFault>,
    /// The connection that it was given, where it has an end.
    pub connection: Option<ConnId>,
    /// What says that the connection was found closed, where it was to be closed at this end.
    pub found_closed: Option<FoundClosed>,
}

/// What a reader is to do: to read this link of this role, at most so many reads that give bytes, to admit at most a batch of
/// descriptors in one hold of the lock, and to put their jobs to this intake.
#[derive(Drop)]
pub struct ReaderTask<Rd, B: Site + Ledger + Named, A: Allocator = Global> {
    pub role: Role,
    pub turns: u32,
    pub batch: Batch,
    pub reader: Rd,
    pub intake: Intake<B, A>,
}

/// What is known of a reader's connection at its end.
#[derive(Drop)]
struct Known {
    connection: Option<ConnId>,
    found_closed: Option<FoundClosed>,
}

impl<
    's,
    G: Gate,
    B: Site + Ledger + Named,
    C: RouterCore<A> + Drop,
    R: Wait,
    A: Allocator + Copy,
> ReaderHandler<'s, G, B, C, R, A> {
    /// A link that has no bytes yet: a plain one is connected at once.
    fn begin(&mut self, role: Role) -> Piece<A>
        requires none { self.old.actor.receipts ≡ [] }
        ensures piece { HasTakenPiece result self.old self.new }
        ensures taken { IsTaken role result [] self.new.actor }
    {
        match role {
            Role::Accepting => Piece::More(Reading::Greeting(Shake::accepting())),
            Role::Calling => Piece::More(Reading::Greeting(Shake::calling())),
            Role::Plain => self.connect_and_take(&[]),
        }
    }

    /// Reads to the end, or as often as so many reads give bytes, and closes nothing.
    fn read_all<Rd: LinkReader>(
        &mut self,
        reader: &mut Rd,
        role: Role,
        turns: u32,
    ) -> Result<(Option<ConnId>, ReaderEnd), BodyFault>
        requires new { IsNewReader (Rd.state reader.old) × (self.old.actor.receipts ≡ []) }
        ensures same { HasSameNumbers self.old self.new × StaysSettled self.old self.new }
        ensures own { (Rd.made_of reader.new ≡ Rd.made_of reader.old)
            × IsReadFrom (Rd.gives (Rd.made_of reader.new)) (Rd.state reader.new) }
        ensures read { IfOk result (λ r. EndsReading turns role r.1 r.0 self.new.actor (Rd.state reader.new)
            (Rd.gives (Rd.made_of reader.new)).may_fail) }
    {
        gn_shake::greeting_is_known();
        let mut buffer = [0u8; 4096];
        let mut piece = self.begin(role);
        for _ in 0..turns {
            piece = match piece {
                Piece::More(reading) => self.read_piece(reader, reading, &mut buffer),
                ended => return ended.into_end(),
            };
        }
        piece.into_end()
    }

    /// Closes the connection at an end that closes it, and shuts the door where there is none.
    fn close_at(
        &mut self,
        connection: Option<ConnId>,
        end: ReaderEnd,
        found: &mut Option<FoundClosed>,
    ) -> Result<(), BodyFault>
        ensures goes_on { GoesOn self.old self.new }
        ensures none { connection ≡ None → self.new ≡ self.old }
        ensures row { (role : Role) (b : List ℕ) → ReadRow role end connection (link_events self.old.actor) b
            → ReaderRow role end connection (link_events self.new.actor) b }
        ensures did { OpenDid end connection self.old.actor.receipts
            → ReaderDid end connection self.new.actor.receipts }
        ensures closed { OnOk result (connection_of self.new.actor ≡ connection
            → HasClosedAt end found.new self.new.actor) }
    {
        match connection {
            None => {
                self.caller.shut();
                Ok(())
            }
            Some(c) if closes(end) => {
                *found = self.caller.close(c)?;
                Ok(())
            }
            Some(_) => Ok(()),
        }
    }

    /// Reads to the end, and closes the connection or shuts the door.
    fn read_link<Rd: LinkReader>(
        &mut self,
        reader: &mut Rd,
        role: Role,
        turns: u32,
        known: &mut Known,
    ) -> Result<ReaderEnd, BodyFault>
        requires new { IsNewReader (Rd.state reader.old) × (self.old.actor.receipts ≡ []) }
        ensures numbers { HasSameNumbers self.old self.new }
        ensures done { IsReaderDone Rd.state Rd.made_of Rd.gives turns (half_of role reader.old)
            (ended known.new.connection self.new.actor reader.new result) }
        ensures put { OnOk result (self.old.is_refused ≡ false
            → self.new.intake.jobs ≡ self.old.intake.jobs ++ jobs_left self.new.actor.receipts) }
        ensures closed { IfOk result (λ end. HasClosedAt end known.new.found_closed self.new.actor) }
    {
        match self.read_all(reader, role, turns) {
            Ok((connection, end)) => {
                known.connection = connection;
                match self.close_at(connection, end, &mut known.found_closed) {
                    Ok(()) if self.is_refused => Err(BodyFault::Refused),
                    Ok(()) => Ok(end),
                    Err(why) => Err(why),
                }
            }
            Err(why) => Err(why),
        }
    }
}

/// Whether a connected reader closes its connection at this end.
fn closes(end: ReaderEnd) -> bool
    ensures { result ≡ closes end }
{
    matches!(
        end,
        ReaderEnd::Fault(_) | ReaderEnd::ReadFailed | ReaderEnd::Turns
    )
}

/// The body of a reader: it awaits the greeting, connects, and admits what its bytes offer, in order. The job of each admitted
/// descriptor is put, or routed by the reader itself where the intake hands it back. The gate learns of each step.
///
/// Where a read failed, at a fault of the bytes and once `turns` reads gave bytes it closes the connection, or finds it closed.
/// The link's door is shut where it doesn't connect, and a stop fails the run. In any case the reader is done, and the
/// link's reader and the intake are finished.
pub fn reader_body<
    Rd: LinkReader,
    G: Gate,
    B: Site + Ledger + Named,
    C: RouterCore<A> + Drop,
    A: Allocator + Copy,
    R: Wait,
>(caller: Caller<'_, G, B, C, R, A>, task: ReaderTask<Rd, B, A>) -> ReaderDone<Rd, B, A>
    requires new { IsNewReader (Rd.state task.reader) }
    requires none { caller.receipts ≡ [] }
    ensures done { IsReaderDone Rd.state Rd.made_of Rd.gives task.turns (half_of task.role task.reader)
        (reader_ended result) }
    ensures finished { Rd.is_finished result.reader ≡ true }
    ensures left { ReaderLeaves caller.entry task result }
{
    let ReaderTask {
        role,
        turns,
        batch,
        mut reader,
        intake,
    } = task;
    let mut me = ReaderHandler {
        caller,
        intake,
        batch,
        is_refused: false,
    };
    let mut known = Known {
        connection: None,
        found_closed: None,
    };
    let end = me.read_link(&mut reader, role, turns, &mut known);
    let ReaderHandler { caller, intake, .. } = me;
    caller.fail_at_stop(&end);
    caller.reader_done();
    reader.finish(caller.rt());
    caller.tell_ended(Half::Reader);
    let Known {
        connection,
        found_closed,
    } = known;
    ReaderDone {
        actor: caller.into_actor(),
        role,
        reader,
        home: intake.finish(),
        end,
        connection,
        found_closed,
    }
}
