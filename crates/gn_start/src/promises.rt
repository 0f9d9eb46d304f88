//! What the bodies of a run start from, and what the thread of each promises.

ghost use Rattle.std.specs.Prelude.{◌≡◌, []};
ghost use Rattle.gn_links.specs.Halves.{IsNewReader, IsNewWriter};

use crate::limits::Limited;
use gn_actors::Named;
use gn_bodies::{ReaderDone, WorkerDone, WriterDone};
use gn_hub::Actor;
use gn_links::{LinkReader, LinkWriter, Place};
use gn_shake::Role;
use gn_stage::{Intake, Outlet, Site};
use std::alloc::{Allocator, Global};
use std::snapshot::Snapshot;
use std::sync::ledger::Ledger;
use std::thread::{Promise, PromisedHandle};

/// What the body of a reader starts from.
#[derive(Drop)]
pub(crate) struct ReaderStart<Rd: LinkReader, B: Site + Ledger + Named, A: Allocator = Global> {
    pub actor: Actor<B, A>,
    pub place: Place,
    pub role: Role,
    pub reader: Rd,
    pub intake: Intake<B, A>,
    pub ghost new: { IsNewReader (Rd.state reader) },
    pub ghost none: { actor.receipts ≡ [] },
}

/// What the body of a writer starts from.
#[derive(Drop)]
pub(crate) struct WriterStart<W: LinkWriter, L: Ledger + Named, A: Allocator = Global> {
    pub actor: Actor<L, A>,
    pub place: Place,
    pub role: Role,
    pub writer: W,
    pub ghost new: { IsNewWriter (W.state writer) },
    pub ghost none: { actor.receipts ≡ [] },
}

/// What the body of a worker starts from.
#[derive(Drop)]
pub(crate) struct WorkerStart<B: Site + Ledger + Named, A: Allocator = Global> {
    pub actor: Actor<B, A>,
    pub worker: u32,
    pub outlet: Outlet<B, A>,
    pub ghost none: { actor.receipts ≡ [] },
}

/// What the body of a thread starts from.
pub(crate) trait Start {
    /// What the body leaves.
    type Done;

    /// What that keeps, from this start.
    ghost kept: { Self → Self.Done → Type 0 };
}

impl<Rd: LinkReader, B: Site + Ledger + Limited + Named, A: Allocator> Start
    for ReaderStart<Rd, B, A> {
    ghost use Rattle.gn_bodies.specs.Done.{half_of};
    ghost use Rattle.gn_start.specs.Joined.{IsReaderJoined};

    type Done = ReaderDone<Rd, B, A>;

    ghost kept = { λ s r. IsReaderJoined Rd.state Rd.made_of Rd.gives B.turns s.actor.number
        (half_of s.role s.reader) r };
}

impl<W: LinkWriter, B: Ledger + Limited + Named, A: Allocator> Start for WriterStart<W, B, A> {
    ghost use Rattle.gn_bodies.specs.Done.{half_of};
    ghost use Rattle.gn_start.specs.Joined.{IsWriterJoined};

    type Done = WriterDone<W, B, A>;

    ghost kept = { λ s r. IsWriterJoined W.state W.made_of B.batch s.actor.number (half_of s.role s.writer) r };
}

impl<B: Site + Ledger + Named, A: Allocator> Start for WorkerStart<B, A> {
    ghost use Rattle.gn_start.specs.Joined.{IsWorkerJoined};

    type Done = WorkerDone<B, A>;

    ghost kept = { λ s r. IsWorkerJoined s.actor.number r };
}

/// The promise of a thread: what its body keeps, from this start.
#[derive(Drop)]
pub(crate) struct Promised<S> {
    pub start: Snapshot<S>,
}

impl<S: Start> Promise<S::Done> for Promised<S> {
    ghost kept_by = { λ p r. S.kept p.start.value r };
}

/// A thread, with what its body promises.
pub(crate) type Handle<S> = PromisedHandle<<S as Start>::Done, Promised<S>>;

/// The thread of a reader, with what its body promises.
pub(crate) type ReaderHandle<Rd, B, A> = Handle<ReaderStart<Rd, B, A>>;

/// The thread of a writer, with what its body promises.
pub(crate) type WriterHandle<W, L, A> = Handle<WriterStart<W, L, A>>;

/// The thread of a worker, with what its body promises.
pub(crate) type WorkerHandle<B, A> = Handle<WorkerStart<B, A>>;
