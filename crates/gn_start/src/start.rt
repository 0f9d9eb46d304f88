//! How the threads of a run are started, and what each promises.

ghost use Rattle.std.specs.Prelude.{◌≡◌, [], true, IfSome};
ghost use Rattle.gn_hub.specs.ActorState.{new_actor};
ghost use Rattle.gn_links.specs.Halves.{IsNewReader, IsNewWriter};

use crate::floor::Floor;
use crate::incoming::NewLink;
use crate::limits::Limited;
use crate::promises::{
    Handle, Promised, ReaderHandle, ReaderStart, Start, WorkerStart, WriterHandle, WriterStart,
};
use crate::slots::LiveLink;
use gn_actors::Named;
use gn_bodies::{
    Caller, ReaderDone, ReaderTask, WorkerDone, WorkerTask, WriterDone, WriterTask, reader_body,
    worker_body, writer_body,
};
use gn_hub::Actor;
use gn_links::{Gate, LinkReader, LinkWriter, Place};
use gn_rules::RouterCore;
use gn_stage::{Intake, Site};
use std::alloc::Allocator;
use std::snapshot::Snapshot;
use std::sync::Wait;
use std::sync::ledger::Ledger;
use std::thread::{Scope, Threads};

/// What a body starts from that runs on a floor.
pub(crate) trait Body<
    C: RouterCore<A> + Drop,
    B: Ledger + Limited + Named,
    G,
    A: Allocator + Copy,
    R,
>: Start {
    /// Runs it.
    fn run(self, floor: &Floor<'_, C, B, G, A, R>) -> Self::Done
        ensures { Self.kept self result };
}

/// The body of a reader.
impl<
    Rd: LinkReader,
    B: Site + Ledger + Limited + Named,
    C: RouterCore<A> + Drop,
    G: Gate,
    A: Allocator + Copy,
    R: Wait,
> Body<C, B, G, A, R> for ReaderStart<Rd, B, A> {
    fn run(self, floor: &Floor<'_, C, B, G, A, R>) -> ReaderDone<Rd, B, A> {
        let ReaderStart {
            actor,
            place,
            role,
            reader,
            intake,
        } = self;
        let caller = Caller {
            rt: floor.rt,
            alloc: floor.alloc,
            service: floor.service,
            gate: floor.gate,
            place,
            actor,
        };
        let task = ReaderTask {
            role,
            turns: floor.limits.turns,
            batch: floor.limits.batch,
            reader,
            intake,
        };
        let done = reader_body(caller, task);
        floor.signal.ended(floor.rt, place.slot);
        done
    }
}

/// The body of a writer.
impl<
    W: LinkWriter,
    B: Ledger + Limited + Named,
    C: RouterCore<A> + Drop,
    G: Gate,
    A: Allocator + Copy,
    R: Wait,
> Body<C, B, G, A, R> for WriterStart<W, B, A> {
    fn run(self, floor: &Floor<'_, C, B, G, A, R>) -> WriterDone<W, B, A> {
        let WriterStart {
            actor,
            place,
            role,
            writer,
        } = self;
        let caller = Caller {
            rt: floor.rt,
            alloc: floor.alloc,
            service: floor.service,
            gate: floor.gate,
            place,
            actor,
        };
        let task = WriterTask {
            role,
            batch: floor.limits.batch,
            writer,
        };
        let done = writer_body(caller, task);
        floor.signal.ended(floor.rt, place.slot);
        done
    }
}

/// The body of a worker.
impl<
    B: Site + Ledger + Limited + Named,
    C: RouterCore<A> + Drop,
    G: Gate,
    A: Allocator + Copy,
    R: Wait,
> Body<C, B, G, A, R> for WorkerStart<B, A> {
    fn run(self, floor: &Floor<'_, C, B, G, A, R>) -> WorkerDone<B, A> {
        let WorkerStart {
            actor,
            worker,
            outlet,
        } = self;
        let caller = Caller {
            rt: floor.rt,
            alloc: floor.alloc,
            service: floor.service,
            gate: floor.gate,
            place: Place::of(worker),
            actor,
        };
        let task = WorkerTask {
            batch: floor.limits.batch,
            outlet,
        };
        worker_body(caller, task)
    }
}

/// Starts the threads of a run in a scope.
#[derive(Drop)]
pub(crate) struct Starter<
    's,
    E,
    C: RouterCore<A> + Drop,
    B: Ledger + Limited + Named,
    G,
    A: Allocator + Copy,
    R,
> {
    pub scope: &'s Scope<'s, E>,
    pub floor: &'s Floor<'s, C, B, G, A, R>,
}

impl<
    's,
    E: 's,
    C: RouterCore<A> + Drop + Send + 's,
    B: Site + Ledger + Limited + Named + Send + Sync + 's,
    G: Gate + Sync + 's,
    A: Allocator + Copy + Send + Sync + 's,
    R: Threads + Wait + Sync + 's,
> Starter<'s, E, C, B, G, A, R> {
    /// Starts a thread that runs this body. None where none can be made.
    pub(crate) fn start_thread<S: Body<C, B, G, A, R> + Drop + Send + 's>(
        &self,
        start: S,
    ) -> Option<Handle<S>>
    where
        S::Done: Send + Drop + 's,
        ensures { IfSome result (λ h. h.promise.start.value ≡ start) }
    {
        let promise = Promised {
            start: Snapshot::of(&start),
        };
        let floor = self.floor;
        self.scope
            .spawn_with(promise, move || start.run(floor))
            .ok()
    }

    /// Starts the two threads of a link. None where one can't be made: then the run has failed, and the other is joined.
    fn start_both<Rd: LinkReader + Send + 's, W: LinkWriter + Send + 's>(
        &self,
        reading: ReaderStart<Rd, B, A>,
        writing: WriterStart<W, B, A>,
    ) -> Option<(ReaderHandle<Rd, B, A>, WriterHandle<W, B, A>)>
        ensures reader { IfSome result (λ both. both.0.promise.start.value ≡ reading) }
        ensures writer { IfSome result (λ both. both.1.promise.start.value ≡ writing) }
    {
        let Some(reader) = self.start_thread(reading) else {
            drop(writing);
            return None;
        };
        let Some(writer) = self.start_thread(writing) else {
            self.fail();
            drop(reader.join(self.floor.rt));
            return None;
        };
        Some((reader, writer))
    }

    /// Starts the two threads of a link at this place with these actors.
    pub(crate) fn start<Rd: LinkReader + Send + 's, W: LinkWriter + Send + 's>(
        &self,
        place: Place,
        link: NewLink<Rd, W>,
        intake: Intake<B, A>,
        actors: (Actor<B, A>, Actor<B, A>),
    ) -> Option<LiveLink<Rd, W, B, A>>
        requires new { IsNewReader (Rd.state link.reader) × IsNewWriter (W.state link.writer) }
        requires actors { (actors.0.receipts ≡ []) × (actors.1.receipts ≡ []) }
        ensures { IfSome result (λ live. live ≡ record {
          link = place.link;
          reader = actors.0.number;
          writer = actors.1.number;
          came = link;
          other = link.role;
        }) }
    {
        let NewLink {
            role,
            reader,
            writer,
        } = link;
        let (reads, writes) = actors;
        let reading = ReaderStart {
            actor: reads,
            place,
            role,
            reader,
            intake,
        };
        let writing = WriterStart {
            actor: writes,
            place,
            role,
            writer,
        };
        let (reading, writing) = self.start_both(reading, writing)?;
        Some(LiveLink {
            link: place.link,
            reading,
            writing,
        })
    }

    /// The run has failed, as the gate learns.
    pub(crate) fn fail(&self) {
        self.floor.gate.failed();
        self.floor.service.fail(self.floor.rt);
    }
}
