//! How a link ends: its threads are joined, and its actors come home.

ghost use Rattle.std.specs.Prelude.{◌≡◌, ◌+◌, ◌<◌, ◌^◌, ◌≢◌, ℕ, None, true, length, IfSome, IsOk};
ghost use mathlib.Core.List.{IsPrefix};
ghost use Rattle.gn_actors.specs.Registry.{IsOut};
ghost use Rattle.gn_actors.specs.Tallies.{last_place, tally_of};
ghost use Rattle.gn_bodies.specs.Done.{half_of};
ghost use Rattle.gn_report.specs.Seen as seen;
ghost use Rattle.gn_report.specs.declared.account.LinkEnd.TheVariants.{Cut, Whole};
ghost use Rattle.gn_start.specs.Faults.{IsFaultOf};
ghost use Rattle.gn_start.specs.Homing.{HaveEnded, IsAccountOf, IsRightLink, IsWhole, ends_left, with_lists};
ghost use Rattle.gn_start.specs.Joined.{IsReaderJoined, IsWriterJoined};
ghost use Rattle.gn_start.specs.Over.{views_of};
ghost use Rattle.gn_start.specs.Kept.{IsKept, IsOne};

use crate::fault::RunFault;
use crate::floor::Floor;
use crate::incoming::Incoming;
use crate::limits::Limited;
use crate::slots::LiveLink;
use crate::trouble::either;
use gn_actors::{Named, Registry, Tally};
use gn_bodies::{BodyFault, ReaderDone, ReaderEnd, WriterDone, WriterEnd};
use gn_hub::{Retired, Retiring};
use gn_links::{LinkReader, LinkWriter};
use gn_report::{LinkAccount, LinkEnd, LinkTally, is_link_right, unkept_trail};
use gn_rules::{ConnId, Receipt, RouterCore};
use gn_shake::Role;
use gn_stage::{IntakeHome, Site};
use gn_trail::Trail;
use std::alloc::{Allocator, Global};
use std::sync::Wait;
use std::sync::ledger::Ledger;
use std::thread::Threads;

/// What a link left that has ended: its end, the fault that this is, if it is one, and the receipts of its actors, who are home.
#[derive(Drop)]
pub(crate) struct Home<Rd, W, A: Allocator = Global> {
    pub end: LinkEnd<Rd, W, A>,
    pub fault: Option<RunFault>,
    pub read: Trail<Receipt<A>>,
    pub written: Trail<Receipt<A>>,
}

/// How the two bodies of a link ended, and what is known of its actors.
#[derive(Drop)]
struct Ends<Rd, W> {
    role: Role,
    reader: Rd,
    reader_end: Result<ReaderEnd, BodyFault>,
    conn: Option<ConnId>,
    writer: W,
    writer_end: Result<WriterEnd, BodyFault>,
    written_on: Option<ConnId>,
    tally: LinkTally,
    last_read: u64,
    last_written: u64,
}

/// Joins the threads of a link.
fn join<
    Rd: LinkReader,
    W: LinkWriter,
    B: Site + Ledger + Limited + Named,
    A: Allocator,
    R: Threads,
>(rt: &R, live: LiveLink<Rd, W, B, A>) -> (ReaderDone<Rd, B, A>, WriterDone<W, B, A>)
    ensures reader { IsReaderJoined Rd.state Rd.made_of Rd.gives B.turns live.reader
        (half_of live.came.role live.came.reader) result.0 }
    ensures writer { IsWriterJoined W.state W.made_of B.batch live.writer
        (half_of live.other live.came.writer) result.1 }
{
    let LiveLink {
        reading,
        writing,
        ..
    } = live;
    let reader = reading.join(rt);
    let writer = writing.join(rt);
    (reader, writer)
}

/// The fault of a run in which a body of this actor ended so, if it is one.
pub(crate) fn fault_in<E>(end: &Result<E, BodyFault>, actor: u32) -> Option<RunFault>
    ensures none { result ≡ None → IsOk end.now }
    ensures fault { IfSome result (λ fault. (links workers : ℕ) → actor < links + links + workers + 1
        → IsFaultOf links workers fault) }
{
    match end {
        Ok(_) => None,
        Err(fault) => Some(RunFault::of_body(*fault, actor)),
    }
}

/// Whether a link's connection isn't live, where it must be closed.
fn is_gone_by_then<Rd, W, A: Allocator>(link: &LinkAccount<Rd, W, A>, is_gone: bool) -> bool
    ensures { result ≡ true → seen.must_be_gone link.now.reader_end link.now.written_on ≡ true → is_gone ≡ true }
{
    match (link.reader_end, link.written_on) {
        (ReaderEnd::Bytes, None) => true,
        _ => is_gone,
    }
}

/// Parts the actors of a link from how its bodies ended: what goes home to the registry, the intake, which goes home to the stage, and
/// the rest.
fn part<Rd: LinkReader, W: LinkWriter, B: Site + Ledger + Named, A: Allocator>(
    reader: ReaderDone<Rd, B, A>,
    writer: WriterDone<W, B, A>,
) -> (Retiring<B, A>, IntakeHome<B, A>, Ends<Rd, W>)
    ensures actors { (result.0.reader ≡ reader.actor) × (result.0.writer ≡ writer.actor) }
    ensures known { (result.0.conn ≡ reader.connection) × (result.0.idle ≡ writer.idle) }
    ensures ends { result.2 ≡ ends_left reader writer }
{
    let ReaderDone {
        actor: reading,
        role,
        reader,
        home,
        end: reader_end,
        connection: conn,
        found_closed: _,
    } = reader;
    let WriterDone {
        actor: writing,
        role: _,
        writer,
        end: writer_end,
        connection: written_on,
        found_closed: _,
        idle,
    } = writer;
    let ends = Ends {
        role,
        reader,
        reader_end,
        conn,
        writer,
        writer_end,
        written_on,
        tally: LinkTally {
            read: reading.tally(),
            written: writing.tally(),
        },
        last_read: reading.last(),
        last_written: writing.last(),
    };
    let retiring = Retiring {
        reader: reading,
        writer: writing,
        conn,
        idle,
    };
    (retiring, home, ends)
}

/// The account of a link whose bodies ended so, both well.
fn account_of<Rd: Drop, W: Drop, A: Allocator>(
    ends: Ends<Rd, W>,
    retired: &Retired<A>,
    reader_end: ReaderEnd,
    writer_end: WriterEnd,
) -> LinkAccount<Rd, W, A>
    requires few { (length retired.now.read.items < 2 ^ 32) × (length retired.now.written.items < 2 ^ 32) }
    requires tally { (ends.tally.read ≡ tally_of retired.now.read.items)
        × (ends.tally.written ≡ tally_of retired.now.written.items) }
    requires last { (ends.last_read ≡ last_place retired.now.read.items)
        × (ends.last_written ≡ last_place retired.now.written.items) }
    ensures { IsAccountOf ends retired.now reader_end writer_end result }
{
    let Ends {
        role,
        reader,
        conn,
        writer,
        written_on,
        tally,
        last_read,
        last_written,
        ..
    } = ends;
    LinkAccount {
        role,
        conn,
        reader_end,
        reader_receipts: unkept_trail(&retired.read),
        reader,
        writer_end,
        writer_receipts: unkept_trail(&retired.written),
        writer,
        read: tally.read,
        written: tally.written,
        last_read,
        last_written,
        written_on,
        idle: retired.idle,
    }
}

/// How a link has ended whose bodies both ended well: a look that fails is a fault, which names its reader.
fn looked_at<Rd: Drop, W: Drop, A: Allocator>(
    account: LinkAccount<Rd, W, A>,
    is_gone: bool,
    number: u32,
) -> (LinkEnd<Rd, W, A>, Option<RunFault>)
    ensures whole { result.1 ≡ None → (result.0 ≡ Whole account) × IsRightLink is_gone account }
    ensures cut { IfSome result.1 (λ _. result.0 ≡ Cut (record { read = account.read; written = account.written })) }
    ensures fault { IfSome result.1 (λ fault. (links workers : ℕ) → number < links + links + workers + 1
        → IsFaultOf links workers fault) }
{
    if is_link_right(&account) && is_gone_by_then(&account, is_gone) {
        return (LinkEnd::Whole(account), None);
    }
    let tally = LinkTally {
        read: account.read,
        written: account.written,
    };
    (LinkEnd::Cut(tally), Some(RunFault::Audit(number)))
}

/// How a link has ended whose bodies ended so, and whose actors are home.
fn ended<Rd: Drop, W: Drop, A: Allocator>(
    ends: Ends<Rd, W>,
    retired: &Retired<A>,
    numbers: (u32, u32),
) -> (LinkEnd<Rd, W, A>, Option<RunFault>)
    requires few { (length retired.now.read.items < 2 ^ 32) × (length retired.now.written.items < 2 ^ 32) }
    requires tally { (ends.tally.read ≡ tally_of retired.now.read.items)
        × (ends.tally.written ≡ tally_of retired.now.written.items) }
    requires last { (ends.last_read ≡ last_place retired.now.read.items)
        × (ends.last_written ≡ last_place retired.now.written.items) }
    ensures ended { HaveEnded ends retired.now result.0 result.1 }
    ensures fault { IfSome result.1 (λ fault. (links workers : ℕ) → numbers.0 < links + links + workers + 1
        → numbers.1 < links + links + workers + 1 → IsFaultOf links workers fault) }
{
    let tally = ends.tally;
    match (ends.reader_end, ends.writer_end) {
        (Ok(reader_end), Ok(writer_end)) => {
            let account = account_of(ends, retired, reader_end, writer_end);
            looked_at(account, retired.is_gone, numbers.0)
        }
        (reader_end, writer_end) => {
            let found = either(
                fault_in(&reader_end, numbers.0),
                fault_in(&writer_end, numbers.1),
            );
            drop(ends);
            (LinkEnd::Cut(tally), found)
        }
    }
}

/// Joins the threads of a link, and its actors come home. Its intake, which goes home, too.
pub(crate) fn come_home<
    V: Incoming,
    B: Site + Ledger + Limited + Named,
    C: RouterCore<A> + Drop,
    G,
    A: Allocator + Copy,
    R: Threads + Wait,
>(
    floor: &Floor<'_, C, B, G, A, R>,
    registry: &mut Registry<B, A>,
    live: LiveLink<V::Reader, V::Writer, B, A>,
) -> (Home<V::Reader, V::Writer, A>, IntakeHome<B, A>)
    requires reader { IsOut registry.old live.reader }
    requires writer { IsOut registry.old live.writer }
    requires apart { live.reader ≢ live.writer }
    requires role { live.other ≡ live.came.role }
    ensures registry { registry.new ≡ with_lists registry.old live.reader result.0.read.items
        live.writer result.0.written.items registry.new.seen }
    ensures began { IsPrefix registry.old.seen registry.new.seen }
    ensures kept { let views = views_of V.Reader.state V.Writer.state V.Reader.gives
        V.Reader.made_of V.Writer.made_of in
        IsOne views live.came → IsKept B.turns B.batch views registry.new.seen live.came
        result.0.end result.0.read.items result.0.written.items }
    ensures whole { result.0.fault ≡ None → IsWhole result.0.end }
    ensures fault { IfSome result.0.fault (λ fault. (links workers : ℕ)
        → live.reader < links + links + workers + 1
        → live.writer < links + links + workers + 1 → IsFaultOf links workers fault) }
{
    let (reader, writer) = join(floor.rt, live);
    let numbers = (reader.actor.number(), writer.actor.number());
    let (retiring, home, ends) = part(reader, writer);
    let retired = floor.service.retire(floor.rt, registry, retiring);
    let (end, fault) = ended(ends, &retired, numbers);
    let Retired { read, written, .. } = retired;
    let home_of = Home {
        end,
        fault,
        read,
        written,
    };
    (home_of, home)
}
