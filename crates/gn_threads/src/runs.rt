//! A run from its links to its report.

ghost use Rattle.std.specs.Prelude.{◌≡◌, ◌≤◌, [], length, map, IfErr, IfOk, IfSome};
ghost use Rattle.gn_rules.specs.Limits.{most_links};
ghost use Rattle.gn_threads.specs.Answers.{IsKeptAnswer, IsRunAnswer, halted_views};
ghost use Rattle.gn_threads.specs.Courses.{AreStepsOf, AreTallies, IsLeft};
ghost use Rattle.gn_report.specs.Accounts.{report_of};
ghost use Rattle.gn_start.specs.Faults.{IsWholeFault};
ghost use Rattle.gn_threads.specs.Headline.{AreMadeOf, Holds, LinksReadOwn, RunsAddUp};

use crate::arrivals::Arrived;
use crate::arriving::run_arriving_by;
use crate::asked::{Asked, Coming, Routing};
use crate::course::{Course, InMemory};
use crate::halted::Halted;
use crate::reporting::told_by;
use gn_hub::Batch;
use gn_links::{Gate, Link, SplitLinks, split_all};
use gn_report::{Account, Report};
use gn_rules::{Config, Historian, MOST_WORKERS, RouterCore};
use gn_start::RunFault;
use std::alloc::Allocator;
use std::sync::Wait;
use std::thread::Threads;

/// Runs a router over these links, each with a reader and a writer, and with this many workers, until all these threads
/// have ended.
///
/// Of several faults it answers a link that can't be split before a full history, that before memory, and an audit last; no
/// clause says so. Whatever the fault, no thread runs on.
pub fn run<
    C: Historian<A> + Drop + Send,
    K: Link,
    G: Gate + Sync,
    A: Allocator + Copy + Send + Sync,
    R: Threads + Wait + Sync,
>(
    rt: &R,
    alloc: A,
    config: &Config,
    links: Vec<K, A>,
    workers: u32,
    gate: &G,
) -> Result<Report<K::Reader, K::Writer, A>, RunFault>
where
    K::Reader: Send,
    K::Writer: Send,
    requires few { length links.items ≤ most_links }
    ensures answer { IsRunAnswer workers (IsWholeFault (map K.may_not_split links.items) workers)
        (Holds 1 K.Reader.state K.Writer.state config.now (map K.role_of links.items) workers)
        (AreMadeOf K.Reader.made_of K.Writer.made_of (map K.origin_of links.items))
        (λ report. report) (λ fault. fault) result }
    ensures bytes { IfOk result (λ report. LinksReadOwn K.Reader.state
        (map (λ link. K.Reader.gives (K.origin_of link)) links.items) report) }
{
    if workers == 0 || workers > MOST_WORKERS {
        return Err(RunFault::BadWorkers);
    }
    let Ok(core) = C::make(alloc, config) else {
        return Err(RunFault::NoMemory);
    };
    let asked = Asked {
        config,
        workers,
        gate,
        batch: Batch::one(),
    };
    let routing = Routing {
        core,
        course: InMemory,
    };
    let (answer, core) = run_by::<C, InMemory, K, G, A, R>(rt, alloc, &asked, links, routing);
    match told_by(alloc, answer, core) {
        Ok(report) => Ok(report),
        Err(stopped) => Err(stopped.fault),
    }
}

/// Does the same with a router of no steps, whose steps may go to somebody who runs beside it, and with writers that take at most
/// `batch` packets at once. Nobody keeps its steps: the account tells its report. What is left of who ran beside it comes back,
/// who had all of them. A fault comes with what stands of the history, which is legal by the configuration of the call, and has as
/// many steps as it may have where the fault is a full history.
pub fn run_by<
    C: RouterCore<A> + Drop + Send,
    W: Course<C, A> + Send + Drop,
    K: Link,
    G: Gate + Sync,
    A: Allocator + Copy + Send + Sync,
    R: Threads + Wait + Sync,
>(
    rt: &R,
    alloc: A,
    asked: &Asked<'_, G>,
    links: Vec<K, A>,
    routing: Routing<C, W>,
) -> (Result<Account<K::Reader, K::Writer, A>, Halted<A>>, W::Rest)
where
    K::Reader: Send,
    K::Writer: Send,
    W::Followed: Send + Drop,
    requires few { length links.items ≤ most_links }
    requires empty { C.steps routing.core ≡ [] }
    ensures answer { IsKeptAnswer asked.now.config.now asked.now.workers
        (IsWholeFault (map K.may_not_split links.items) asked.now.workers)
        (Holds asked.now.batch K.Reader.state K.Writer.state asked.now.config.now (map K.role_of links.items)
        asked.now.workers)
        (AreMadeOf K.Reader.made_of K.Writer.made_of (map K.origin_of links.items)) report_of halted_views result.0 }
    ensures bytes { IfOk result.0 (λ account. LinksReadOwn K.Reader.state
        (map (λ link. K.Reader.gives (K.origin_of link)) links.items) (report_of account)) }
    ensures tallied { IfErr result.0 (λ halted. IfSome halted.history (λ history. IfSome halted.links (λ tallies.
        AreTallies history.items (length links.items) tallies.items))) }
    ensures rest { IsLeft (W.follows routing.course) W.leaves result.1 (AreStepsOf result.0) }
{
    let workers = asked.workers;
    if workers == 0 || workers > MOST_WORKERS {
        return (
            Err(Halted::before(RunFault::BadWorkers)),
            routing.course.give_up(),
        );
    }
    let split = match split_all(alloc, links) {
        Ok(split) => split,
        Err(fault) => {
            return (
                Err(Halted::before(RunFault::from(fault))),
                routing.course.give_up(),
            );
        }
    };
    let SplitLinks { roles, links } = split;
    let roles = roles.as_slice();
    let arrivals = Arrived {
        links: links.into_iter(),
    };
    let coming = Coming { roles, arrivals };
    run_arriving_by::<C, W, Arrived<K, A>, G, A, R>(rt, alloc, asked, coming, routing)
}

/// The law of what follows where `Holds` does, whatever the batch: as many receipts as steps, each ticket routed once, and both actors
/// of a link have all that the history says of it.
pub fn runs_add_up<Rd, W, A: Allocator>()
    ensures { RunsAddUp Rd W A }
{}
