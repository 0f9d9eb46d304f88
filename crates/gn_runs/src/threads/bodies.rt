//! The bodies of one link, called in turn on one thread.

ghost use Rattle.std.specs.Prelude.{◌≡◌, [], IfSome};
ghost use Rattle.std.specs.List.{All};
ghost use Rattle.gn_links.specs.Halves.{IsNewReader, IsNewWriter};

mod batches;
mod fakes;
mod jobs;
mod ways_out;
pub(crate) mod worked;

use crate::threads::hub::are_lines;
use crate::threads::stage::put_some;
use fakes::{Doorman, Told};
use gn_actors::{Named, Unopened};
use gn_bodies::{
    BodyFault, Caller, ReaderEnd, ReaderTask, WorkerTask, WriterDone, WriterEnd, WriterTask,
    reader_body, worker_body, writer_body,
};
use gn_fixtures::{Heap, Refused};
use gn_hub::{Actor, Batch, Door, Hub, Service};
use gn_links::{Link, LinkReader, LinkWriter, MemoryLink, Place};
use gn_rules::{Event, Historian, RouterCore};
use gn_shake::Role;
use gn_stage::{Intake, Outlet, Site, Stage};
use gn_table_router::TableRouter;
use std::alloc::{Allocator, Global};
use std::marker::Brand;
use std::sync::Wait;
use std::sync::ledger::Ledger;
use std::test::Fail;

/// The number by which the worker passes the gate.
const WORKER: u32 = 5;

/// Takes the last of these actors, which have no receipts.
#[tactic(auto, using(crate::proofs::NewLemmas::left_none, crate::proofs::NewLemmas::last_none))]
fn last_actor<A: Allocator + Copy, L: Ledger + Named>(
    actors: &mut Vec<Actor<L, A>, A>,
) -> Option<Actor<L, A>>
    requires { All (λ actor. actor.receipts ≡ []) actors.old.items }
    ensures rest { All (λ actor. actor.receipts ≡ []) actors.new.items }
    ensures last { IfSome result (λ actor. actor.receipts ≡ []) }
{
    actors.pop()
}

/// The actors of a run of one link and one worker.
#[derive(Drop)]
struct Actors<L: Ledger + Named, A: Allocator> {
    reader: Actor<L, A>,
    writer: Actor<L, A>,
    worker: Actor<L, A>,
}

/// The reader, the writer and the worker, which stand in this order and have no receipts.
fn actors_of<A: Allocator + Copy, L: Ledger + Named>(
    actors: Vec<Actor<L, A>, A>,
) -> Option<Actors<L, A>>
    requires { All (λ actor. actor.receipts ≡ []) actors.items }
    ensures { IfSome result (λ all. (all.reader.receipts ≡ []) × (all.writer.receipts ≡ [])
        × (all.worker.receipts ≡ [])) }
{
    let mut actors = actors;
    let worker = last_actor(&mut actors);
    let writer = last_actor(&mut actors);
    let reader = last_actor(&mut actors);
    drop(actors);
    let ((reader, writer), worker) = reader.zip(writer).zip(worker)?;
    Some(Actors {
        reader,
        writer,
        worker,
    })
}

/// How the reader, the worker and the writer end.
pub(crate) type Ends = (
    Result<ReaderEnd, BodyFault>,
    Result<(), BodyFault>,
    Result<WriterEnd, BodyFault>,
);

/// How the bodies of one link ended, and what is looked at of the run that they left.
#[derive(Clone, Copy)]
pub(crate) struct Ran {
    pub(crate) ends: Ends,
    /// How many steps the gate knows of.
    pub(crate) steps: usize,
    /// Who passed the gate last, with which ticket.
    passed: Option<(u32, u32)>,
    /// Of which steps the gate was told.
    told: Told,
    /// Of which ends the gate was told: the reader's, the writer's.
    ended: (bool, bool),
    /// Whether what its setting says was written, and no more.
    pub(crate) is_written: bool,
    /// How many steps its history has.
    pub(crate) length: usize,
    /// Whether they have the lines that its setting says.
    has_lines: bool,
    door: Door,
    is_closing: bool,
    pub(crate) has_failed: bool,
    /// Whether a growth of a body was refused.
    pub(crate) has_refused: bool,
}

/// What a run of one link is like.
#[derive(Clone, Copy)]
pub(crate) struct Setting<'a> {
    /// The most steps of its history.
    steps: u32,
    /// The first ticket, and the number, of jobs that wait in its queue and that nobody admitted.
    forged: (u32, u32),
    /// How many connections the house makes before the link, of four that may be live.
    connected: u32,
    /// Whether it has no worker.
    is_alone: bool,
    /// How many reads of its link may give bytes.
    turns: u32,
    /// How many packets its writer takes at once at most.
    batch: u32,
    /// What its writer is to write: an opening, and what comes after it.
    written: (&'a [u8], &'a [u8]),
    /// The lines that its history is to have.
    lines: &'a str,
    /// The memory of the bodies, and which of their growths it refuses; nothing else that the run does is refused any.
    refused: Option<(&'a Heap, Refused)>,
}

/// A history of a hundred steps, one packet at a time, nothing that is to be written, and nothing out of the way.
const USUAL: Setting<'static> = Setting {
    steps: 100,
    forged: (0, 0),
    connected: 0,
    is_alone: false,
    turns: 1_000_000,
    batch: 1,
    written: (b"", b""),
    lines: "",
    refused: None,
};

impl<'a> Setting<'a> {
    /// The usual one, where the bodies are refused these growths of a memory, and are to write this.
    pub(crate) fn refusing(
        heap: &'a Heap,
        refused: Refused,
        written: (&'a [u8], &'a [u8]),
    ) -> Self {
        Setting {
            refused: Some((heap, refused)),
            written,
            ..USUAL
        }
    }
}

/// Refuses the growths of a setting from now on.
fn begin_refusals(refused: Option<(&Heap, Refused)>) {
    if let Some((heap, growths)) = refused {
        growths.begin(heap);
    }
}

/// Refuses none from now on: whether one was refused.
fn end_refusals(refused: Option<(&Heap, Refused)>) -> bool {
    match refused {
        Some((heap, _)) => {
            let has_refused = heap.has_refused();
            heap.refuse_none();
            has_refused
        }
        None => false,
    }
}

/// How many steps the history of a hub has, and whether they have these lines.
fn looked_at<A, C, L: Ledger + Named>(alloc: A, hub: Hub<C, L, A>, wanted: &str) -> (usize, bool)
where
    A: Allocator + Copy,
    C: Historian<A> + Drop,
{
    let history = hub.into_router().into_history();
    (history.len(), are_lines(alloc, history.as_slice(), wanted))
}

/// What a gate and a hub know once all bodies have returned, with how those ended and whether the writer wrote what it was
/// to. A job that passed the gate is a step, but for one whose worker was refused the route.
fn what_ran<A, C, L: Ledger + Named>(
    alloc: A,
    gate: &Doorman,
    hub: Hub<C, L, A>,
    ends: Ends,
    is_written: bool,
    has_refused: bool,
    wanted: &str,
) -> Ran
where
    A: Allocator + Copy,
    C: Historian<A> + Drop,
{
    let (door, is_closing, has_failed) = (hub.door(0), hub.closing(), hub.failed());
    let (length, has_lines) = looked_at(alloc, hub, wanted);
    let refused_steps = ends.1.is_err() as usize;
    Ran {
        ends,
        steps: gate.count.get().wrapping_sub(refused_steps),
        passed: gate.last.get(),
        told: gate.told.get(),
        ended: gate.ended.get(),
        is_written,
        length,
        has_lines,
        door,
        is_closing,
        has_failed,
        has_refused,
    }
}

/// An actor that makes its calls from this place, with all that they need.
fn caller_at<'s, A, C, L: Ledger + Named, R>(
    rt: &'s R,
    alloc: A,
    service: &'s Service<C, L, A>,
    gate: &'s Doorman,
    place: u32,
    actor: Actor<L, A>,
) -> Caller<'s, Doorman, L, C, R, A>
where
    A: Allocator + Copy,
    C: RouterCore<A> + Drop,
    ensures { result ≡ actor }
{
    Caller {
        rt,
        alloc,
        service,
        gate,
        place: Place::of(place),
        actor,
    }
}

/// How a worker ends that has this outlet; well, where there is none.
fn worker_end<A, C, B: Site + Ledger + Named, R: Wait>(
    caller: Caller<'_, Doorman, B, C, R, A>,
    batch: Batch,
    outlet: Option<Outlet<B, A>>,
) -> Result<(), BodyFault>
where
    A: Allocator + Copy,
    C: RouterCore<A> + Drop,
    requires { caller.receipts ≡ [] }
{
    match outlet {
        Some(outlet) => worker_body(caller, WorkerTask { batch, outlet }).end,
        None => Ok(()),
    }
}

/// The reader, the worker, where there is one, and the writer of one link, one after the other: how they end, and the half of
/// the link that is written.
fn in_turn<A, C, B: Site + Ledger + Named, Rd: LinkReader, W: LinkWriter, R: Wait>(
    rt: &R,
    alloc: A,
    service: &Service<C, B, A>,
    gate: &Doorman,
    actors: Actors<B, A>,
    intake: Intake<B, A>,
    outlet: Option<Outlet<B, A>>,
    role: Role,
    setting: Setting<'_>,
    reader: Rd,
    writer: W,
) -> (Ends, W)
where
    A: Allocator + Copy,
    C: Historian<A> + Drop,
    requires calls { (actors.reader.receipts ≡ []) × (actors.writer.receipts ≡ []) × (actors.worker.receipts ≡ []) }
    requires reader { IsNewReader (Rd.state reader) }
    requires writer { IsNewWriter (W.state writer) }
{
    let Actors {
        reader: a,
        writer: w,
        worker: k,
    } = actors;
    let batch = Batch::of(setting.batch).unwrap_or(Batch::one());
    let reads = ReaderTask {
        role,
        turns: setting.turns,
        batch,
        reader,
        intake,
    };
    let read = reader_body(caller_at(rt, alloc, service, gate, 0, a), reads).end;
    let worked = worker_end(
        caller_at(rt, alloc, service, gate, WORKER, k),
        batch,
        outlet,
    );
    let writes = WriterTask {
        role,
        batch,
        writer,
    };
    let WriterDone { writer, end, .. } = writer_body(
        caller_at(rt, alloc, service, gate, 0, w),
        writes,
    );
    ((read, worked, end), writer)
}

/// The last of these; the others are dropped.
fn last_of<T: Drop, A: Allocator>(mut all: Vec<T, A>) -> Option<T> {
    all.pop()
}

/// The outlet of a worker; none in a run without workers.
fn outlet_of<S: Site, A: Allocator>(outlet: Outlet<S, A>, is_alone: bool) -> Option<Outlet<S, A>> {
    if is_alone {
        drop(outlet);
        return None;
    }
    Some(outlet)
}

/// The only intake and the only outlet of a stage; no outlet in a run without workers.
fn ends_of<A: Allocator + Copy, S: Site>(
    alloc: A,
    stage: Stage<A>,
    is_alone: bool,
) -> Option<(Intake<S, A>, Option<Outlet<S, A>>)>
    requires { stage ≡ S.stage }
{
    let (ins, outs, desk) = stage.ends::<S>(alloc, 1, 1).ok()?;
    drop(desk);
    let (intake, outlet) = last_of(ins).zip(last_of(outs))?;
    Some((intake, outlet_of(outlet, is_alone)))
}

/// The house makes a connection, where it may.
fn connect<A, C, L: Ledger + Named, R: Wait>(
    rt: &R,
    service: &Service<C, L, A>,
    house: &mut Actor<L, A>,
)
where
    A: Allocator + Copy,
    C: RouterCore<A> + Drop,
{
    let event = Event::Connect;
    let answer = service.call(rt, house, &event);
    drop(event);
    drop(answer);
}

/// The house makes so many connections.
fn connect_all<A, C, L: Ledger + Named, R: Wait>(
    rt: &R,
    service: &Service<C, L, A>,
    house: Option<Actor<L, A>>,
    count: u32,
)
where
    A: Allocator + Copy,
    C: RouterCore<A> + Drop,
{
    let Some(mut house) = house else {
        return;
    };
    for _ in 0..count {
        connect(rt, service, &mut house);
    }
}

/// A service of one link and one worker, of which the house has made its connections, with its other actors.
#[tactic(auto, using(crate::proofs::NewLemmas::new_left))]
fn service_of<A, C, L: Ledger + Named, R: Wait>(
    rt: &R,
    alloc: A,
    unopened: Unopened<A>,
    setting: Setting<'_>,
    role: Role,
) -> Option<(Service<C, L, A>, Actors<L, A>)>
where
    A: Allocator + Copy,
    C: Historian<A> + Drop,
    requires name { (unopened.blank.name ≡ L.name) × (unopened.steps.name ≡ L.growing) }
    requires parts { (unopened.blank.parts ≡ L.parts) × (unopened.blank.parts ≡ 4) }
    ensures { IfSome result (λ r. (r.1.reader.receipts ≡ []) × (r.1.writer.receipts ≡ [])
        × (r.1.worker.receipts ≡ [])) }
{
    let made = crate::threads::hub::service_of::<A, C, L>(alloc, unopened, setting.steps, &[role]);
    let Ok((service, mut actors)) = made else {
        return None;
    };
    connect_all(rt, &service, actors.pop(), setting.connected);
    let actors = actors_of(actors)?;
    Some((service, actors))
}

/// The bodies of one memory link in turn, with the ends of a stage and the actors of a service.
fn over_link<A, B, C, L: Site + Ledger + Named, R: Wait>(
    rt: &R,
    alloc: A,
    service: Service<C, L, A>,
    actors: Actors<L, A>,
    intake: Intake<L, A>,
    outlet: Option<Outlet<L, A>>,
    setting: Setting<'_>,
    link: MemoryLink<B>,
) -> Option<Ran>
where
    A: Allocator + Copy,
    B: Allocator + Copy,
    C: Historian<A> + Drop,
    requires calls { (actors.reader.receipts ≡ []) × (actors.writer.receipts ≡ []) × (actors.worker.receipts ≡ []) }
{
    let role = link.role();
    let (reader, writer) = link.split().ok()?;
    let gate = Doorman::new();
    begin_refusals(setting.refused);
    let (ends, writer) = in_turn(
        rt, alloc, &service, &gate, actors, intake, outlet, role, setting, reader, writer,
    );
    let has_refused = end_refusals(setting.refused);
    let (opening, after) = setting.written;
    let is_written = writer.bytes().strip_prefix(opening) == Some(after);
    drop(writer);
    let ran = what_ran(
        alloc,
        &gate,
        service.into_hub(),
        ends,
        is_written,
        has_refused,
        setting.lines,
    );
    Some(ran)
}

/// The bodies of one memory link in turn, with the ends of a stage and the actors of a service of their own.
fn in_stage<A, B, C, L: Site + Ledger + Named, R: Wait>(
    rt: &R,
    alloc: A,
    unopened: Unopened<A>,
    stage: Stage<A>,
    setting: Setting<'_>,
    link: MemoryLink<B>,
) -> Option<Ran>
where
    A: Allocator + Copy,
    B: Allocator + Copy,
    C: Historian<A> + Drop,
    requires name { (unopened.blank.name ≡ L.name) × (unopened.steps.name ≡ L.growing) }
    requires parts { (unopened.blank.parts ≡ L.parts) × (unopened.blank.parts ≡ 4) }
    requires stage { stage ≡ L.stage }
{
    let (mut intake, outlet) = ends_of::<A, L>(alloc, stage, setting.is_alone)?;
    put_some(rt, &mut intake, setting.forged.0, setting.forged.1);
    let role = link.role();
    let (service, actors) = service_of::<A, C, L, R>(rt, alloc, unopened, setting, role)?;
    over_link(rt, alloc, service, actors, intake, outlet, setting, link)
}

/// The bodies of one memory link in turn, over the table router. None where one of them has no memory to begin with.
pub(crate) fn run_link<A: Allocator + Copy, B: Allocator + Copy, R: Wait>(
    rt: &R,
    alloc: A,
    setting: Setting<'_>,
    link: MemoryLink<B>,
) -> Result<Ran, Fail> {
    let stage = Stage::new(alloc, 8)?;
    let unopened = Unopened::new(4);
    let ran = in_stage::<A, B, TableRouter<A>, Brand, R>(rt, alloc, unopened, stage, setting, link);
    Ok(ran.ok_or("the bodies of a link")?)
}

/// The bodies of a plain link that gives these bytes, over a memory without limit.
fn run_plain<R: Wait>(
    rt: &R,
    alloc: Global,
    setting: Setting<'_>,
    bytes: &[u8],
) -> Result<Ran, Fail> {
    let link = MemoryLink::new(Role::Plain, bytes.to_vec(alloc)?, 4096);
    run_link(rt, alloc, setting, link)
}
