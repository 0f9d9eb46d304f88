//! The body of a worker.

ghost use Rattle.std.specs.Prelude.{◌≡◌, ◌<◌, ◌≤◌, ◌∷◌, ◌++◌, [], false, length, take, IfOk, OnOk};
ghost use Rattle.gn_stage.specs.Ends.{End};
ghost use Rattle.gn_stage.specs.Jobs.{Queued};
ghost use Rattle.gn_bodies.specs.Events.{events_of, link_events};
ghost use Rattle.gn_bodies.specs.Jobs.{HasTakenJobs, routes_by, routes_of, tickets_by};

use crate::caller::Caller;
use crate::ends::BodyFault;
use gn_actors::Named;
use gn_hub::{Actor, Batch, Progress};
use gn_links::Gate;
use gn_payload::Checked;
use gn_rules::{RouterCore, Ticket};
use gn_stage::{Job, Outlet, OutletHome, Site};
use std::alloc::{AllocError, Allocator, Global};
use std::sync::Wait;
use std::sync::ledger::Ledger;

/// What the body of a worker gives back. `B` stands for the run, and names its ledger and its stage.
#[derive(Drop)]
pub struct WorkerDone<B: Site + Ledger + Named, A: Allocator = Global> {
    pub actor: Actor<B, A>,
    pub home: OutletHome<B, A>,
    pub end: Result<(), BodyFault>,
}

/// What a worker is to do: to route the jobs of this outlet, of which it takes at most a batch before it routes them.
#[derive(Drop)]
pub struct WorkerTask<B: Site + Ledger + Named, A: Allocator = Global> {
    pub batch: Batch,
    pub outlet: Outlet<B, A>,
}

/// A worker at work: its actor's calls, its outlet, and the jobs that it has taken and checked.
#[derive(Drop)]
struct WorkerHandler<
    's,
    G,
    B: Site + Ledger + Named,
    C: RouterCore<A> + Drop,
    R,
    A: Allocator + Copy = Global,
> {
    caller: Caller<'s, G, B, C, R, A>,
    outlet: Outlet<B, A>,
    jobs: Vec<(Ticket, Checked<A>), A>,
}

impl<
    's,
    G: Gate,
    B: Site + Ledger + Named,
    C: RouterCore<A> + Drop,
    R: Wait,
    A: Allocator + Copy,
> WorkerHandler<'s, G, B, C, R, A> {
    /// Checks a job, passes the gate, and puts it behind those that were taken. An `Err` is out of memory.
    fn add_job(&mut self, job: Job<A>) -> Result<(), AllocError>
        ensures same { (self.new.caller ≡ self.old.caller) × (self.new.outlet ≡ self.old.outlet) }
        ensures added { OnOk result
            (tickets_by self.new.jobs.items ≡ tickets_by self.old.jobs.items ++ job.ticket ∷ []) }
    {
        let Job { ticket, descriptor } = job;
        let checked = Checked::new(descriptor);
        self.caller.enter(ticket);
        self.jobs.push((ticket, checked))?;
        Ok(())
    }

    /// Takes the jobs that wait, at most so many, and puts them behind those that were taken. An `Err` is out of memory.
    fn add_waiting(&mut self, most: u32) -> Result<(), AllocError>
        ensures same { (self.new.caller ≡ self.old.caller) × (self.new.outlet.number ≡ self.old.outlet.number) }
        ensures taken { (before : End Queued) → HasTakenJobs before self.old.outlet self.old.jobs.items
            → OnOk result (HasTakenJobs before self.new.outlet self.new.jobs.items) }
    {
        for _ in 0..most {
            let Some(job) = self.outlet.try_take(self.caller.rt()) else {
                break;
            };
            self.add_job(job)?;
        }
        Ok(())
    }

    /// Waits for a job, and takes it and those that wait behind it, at most a batch of them. False where there is none any more.
    /// An `Err` is out of memory.
    fn take_jobs(&mut self, batch: Batch) -> Result<bool, AllocError>
        ensures same { (self.new.caller ≡ self.old.caller) × (self.new.outlet.number ≡ self.old.outlet.number) }
        ensures taken { OnOk result (HasTakenJobs self.old.outlet self.new.outlet self.new.jobs.items) }
        ensures none { IfOk result (λ any. any ≡ false → self.new.jobs.items ≡ []) }
    {
        self.jobs.clear();
        let Some(first) = self.outlet.take(self.caller.rt()) else {
            return Ok(false);
        };
        self.add_job(first)?;
        self.add_waiting(batch.most() - 1)?;
        Ok(true)
    }

    /// Routes the jobs to their end.
    fn route_all(&mut self, batch: Batch) -> Result<(), BodyFault>
        requires none { self.old.caller.receipts ≡ [] }
        ensures same { (self.new.caller.number ≡ self.old.caller.number)
            × (self.new.outlet.number ≡ self.old.outlet.number) }
        ensures routes { link_events self.new.caller ≡ [] }
        ensures each { OnOk result
            (routes_of self.new.outlet.jobs ≡ routes_of self.old.outlet.jobs ++ events_of self.new.caller) }
    {
        let mut end: Result<(), BodyFault> = Ok(());
        let rt = self.caller.rt();
        for _ in rt.forever() {
            let Ok(any) = self.take_jobs(batch) else {
                return Err(BodyFault::NoMemory);
            };
            if !any {
                return end;
            }
            if let Err(fault) = self.caller.route_jobs(self.jobs.as_slice()) {
                if fault.is_stop() {
                    return Err(fault);
                }
                end = Err(fault);
            }
        }
        unreachable!()
    }
}

impl<'s, G: Gate, B: Ledger + Named, C: RouterCore<A> + Drop, R: Wait, A: Allocator + Copy> Caller<
    's,
    G,
    B,
    C,
    R,
    A,
> {
    /// Routes the first of these jobs in one hold of the lock. How many it went through: the last of them may have been refused, and
    /// made no step.
    fn route_some(&mut self, jobs: &[(Ticket, Checked<A>)]) -> (usize, Result<(), BodyFault>)
        requires some { 0 < length jobs.now }
        ensures number { self.new.number ≡ self.old.number }
        ensures routes { link_events self.new ≡ link_events self.old }
        ensures some { (0 < result.0) × (result.0 ≤ length jobs.now) }
        ensures each { OnOk result.1 (events_of self.new ≡ events_of self.old ++ routes_by (take result.0 jobs.now)) }
    {
        let Progress { done, refusal } = self.route_all(jobs);
        match refusal {
            None => (done, Ok(())),
            Some(refusal) => (done + 1, Err(BodyFault::from(refusal))),
        }
    }

    /// Routes these jobs in order, in as few holds of the lock as there is room for. A job that is refused its route makes no step.
    fn route_jobs(&mut self, jobs: &[(Ticket, Checked<A>)]) -> Result<(), BodyFault>
        ensures number { self.new.number ≡ self.old.number }
        ensures routes { link_events self.new ≡ link_events self.old }
        ensures each { OnOk result (events_of self.new ≡ events_of self.old ++ routes_by jobs.now) }
    {
        let mut end: Result<(), BodyFault> = Ok(());
        let mut at: usize = 0;
        while at < jobs.len() {
            let (count, answer) = self.route_some(&jobs[at..]);
            at += count;
            match answer {
                Ok(()) => {}
                Err(fault) => {
                    if fault.is_stop() {
                        return Err(fault);
                    }
                    end = Err(fault);
                }
            }
        }
        end
    }
}

/// The body of a worker: it takes each job, checks its payload, passes the gate, and routes it. Of the jobs that wait for it, it takes
/// at most `batch` before it routes them. Where it ended well, it routed each job that it took once, in order. A job that is refused
/// its route makes no step; the worker goes on with the next one, and ends as Refused.
///
/// A stop fails the run. In any case its outlet is finished. That it went on until there was no job, no clause says.
pub fn worker_body<
    G: Gate,
    B: Site + Ledger + Named,
    C: RouterCore<A> + Drop,
    A: Allocator + Copy,
    R: Wait,
>(caller: Caller<'_, G, B, C, R, A>, task: WorkerTask<B, A>) -> WorkerDone<B, A>
    requires none { caller.receipts ≡ [] }
    ensures number { result.actor.number ≡ caller.entry.number }
    ensures home { result.home.number ≡ task.outlet.number }
    ensures routes { link_events result.actor ≡ [] }
    ensures each { OnOk result.end
        (routes_of result.home.jobs ≡ routes_of task.outlet.jobs ++ events_of result.actor) }
{
    let WorkerTask { batch, outlet } = task;
    let jobs = Vec::new(caller.alloc);
    let mut me = WorkerHandler {
        caller,
        outlet,
        jobs,
    };
    let end = me.route_all(batch);
    let WorkerHandler { caller, outlet, .. } = me;
    caller.fail_at_stop(&end);
    WorkerDone {
        actor: caller.into_actor(),
        home: outlet.finish(),
        end,
    }
}
