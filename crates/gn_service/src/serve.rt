//! A run over TCP.

ghost use Rattle.std.specs.Prelude.{◌≡◌, ◌+◌, ◌≤◌, [], length, true, IfErr, IfOk, IfSome, MatchResult};
ghost use Rattle.gn_rules.specs.Limits.{most_links};
ghost use Rattle.gn_report.specs.Accounts.{report_of};
ghost use Rattle.gn_threads.specs.Answers.{IsRunAnswer, halted_views, stopped_views};
ghost use Rattle.gn_threads.specs.Courses.{AreTallies, IsLeft};
ghost use Rattle.gn_start.specs.Faults.{IsArrivingFault};
ghost use Rattle.gn_threads.specs.Headline.{AreMadeOf, AreOfOne, Holds};
ghost use Rattle.gn_service.specs.Links.{origins_of, roles_of};
ghost use Rattle.gn_sockets.specs.TcpHalves.{half_read, half_written};
ghost use Rattle.gn_service.specs.Ran.{ran_of};
ghost use Rattle.gn_service.specs.Serves.{IsServed, served_account, served_report};

use crate::host::Host;
use crate::ran::Ran;
use crate::running::Running;
use crate::serving::{Serve, Serving};
use gn_hub::Batch;
use gn_links::Watch;
use gn_report::{Account, Report};
use gn_rules::{Config, Historian, MOST_WORKERS, RouterCore};
use gn_tcp::{TcpReader, TcpWriter};
use gn_threads::{Course, Halted, InMemory, Routing, RunFault, Stopped, stopped_by, tell};
use std::alloc::Allocator;
use std::net::{SocketAddr, TcpListener};

/// Runs a router over links to these peers, which it calls, and to so many others that call the listener. Peers are called all at
/// once and beside the others: nobody waits for one that isn't there yet. The bodies of each link start as soon as it has come, those
/// of a peer at once; it waits for a caller without a time limit, for peers and what they send and take as `serving` says, and
/// where it has failed for nobody. The listener is closed once the last has come,
/// so it is for one run. Where the system has no handle for a caller, it waits until it has. `watch` learns of each link as it
/// comes, of a peer that can't be called, and each worker passes it before it routes. At most 256 links. A writer writes one packet
/// at a time.
///
/// Where it is stopped before all have come, the links of the others have no bytes, and nobody is told of them.
///
/// Of several faults it answers the one that `run` of gn_threads does, and of several peers that can't be called the first. Where a
/// call, an accept or a split fails, the bodies that have started are ended and joined first, and their peers are let go at once.
pub fn serve_on<
    's,
    C: Historian<A> + Drop + Send,
    G: Watch + Sync,
    A: Allocator + Copy + Send + Sync,
    R: Host,
>(
    rt: &R,
    alloc: A,
    listener: &TcpListener,
    config: &Config,
    accept: u32,
    peers: &[SocketAddr],
    serving: &Serving<'s>,
    workers: u32,
    watch: &G,
) -> Result<Report<TcpReader<'s>, TcpWriter, A>, RunFault>
    requires few { accept + length peers.now ≤ most_links }
    ensures answered { IsRunAnswer workers (IsArrivingFault true (length peers.now + accept) workers)
        (Holds 1 half_read half_written config.now (roles_of (length peers.now) (length peers.now + accept)) workers)
        (AreMadeOf (λ half. half.origin) (λ half. half.origin) (origins_of peers.now (length peers.now + accept)))
        (λ report. report) (λ fault. fault) result }
    ensures one_socket { IfOk result (λ report. AreOfOne (λ half. half.socket) (λ half. half.socket) report) }
{
    let serve = Serve {
        listener,
        config,
        peers,
        accept,
        workers,
        limits: *serving,
        watch,
        batch: Batch::one(),
    };
    match serve_kept::<C, G, A, R>(rt, alloc, &serve) {
        Ok((report, _)) => Ok(report),
        Err(stopped) => Err(stopped.fault),
    }
}

/// Does the same. Its report comes with what is remembered of it, and a fault with what stands of the history, which is legal by the
/// configuration of the call, and has as many steps as it may have where the fault is a full history.
pub fn serve_kept<
    's,
    C: Historian<A> + Drop + Send,
    G: Watch + Sync,
    A: Allocator + Copy + Send + Sync,
    R: Host,
>(
    rt: &R,
    alloc: A,
    serve: &Serve<'_, 's, G>,
) -> Result<(Report<TcpReader<'s>, TcpWriter, A>, Ran<A>), Stopped<A>>
    requires few { serve.now.accept + length serve.now.peers.now ≤ most_links }
    ensures served { let s = serve.now in
        IsServed s.batch s.config.now s.peers.now s.accept s.workers served_report stopped_views result }
    ensures ran { IfOk result (λ done. done.1 ≡ ran_of done.0) }
{
    if serve.workers == 0 || serve.workers > MOST_WORKERS {
        return Err(Stopped::before(RunFault::BadWorkers));
    }
    let Ok(core) = C::make(alloc, serve.config) else {
        return Err(Stopped::before(RunFault::NoMemory));
    };
    let routing = Routing {
        core,
        course: InMemory,
    };
    let (answer, core) = serve_by::<C, InMemory, G, A, R>(rt, alloc, serve, routing);
    match answer {
        Ok((account, ran)) => match tell(alloc, account, core) {
            Ok(report) => Ok((report, ran)),
            Err(stopped) => Err(stopped),
        },
        Err(halted) => Err(stopped_by(alloc, halted, core)),
    }
}

/// Does the same with a router of no steps, whose steps may go to somebody who runs beside it. Nobody keeps them: the account tells its
/// report. What is left of who ran beside it comes back, who had all of them.
pub fn serve_by<
    's,
    C: RouterCore<A> + Drop + Send,
    W: Course<C, A> + Send + Drop,
    G: Watch + Sync,
    A: Allocator + Copy + Send + Sync,
    R: Host,
>(
    rt: &R,
    alloc: A,
    serve: &Serve<'_, 's, G>,
    routing: Routing<C, W>,
) -> (
    Result<(Account<TcpReader<'s>, TcpWriter, A>, Ran<A>), Halted<A>>,
    W::Rest,
)
where
    W::Followed: Send + Drop,
    requires few { serve.now.accept + length serve.now.peers.now ≤ most_links }
    requires empty { C.steps routing.core ≡ [] }
    ensures served { let s = serve.now in
        IsServed s.batch s.config.now s.peers.now s.accept s.workers served_account halted_views result.0 }
    ensures tallied { IfErr result.0 (λ halted. IfSome halted.history (λ history. IfSome halted.links (λ tallies.
        AreTallies history.items (length serve.now.peers.now + serve.now.accept) tallies.items))) }
    ensures ran { IfOk result.0 (λ done. done.1 ≡ ran_of (report_of done.0)) }
    ensures rest { IsLeft (W.follows routing.course) W.leaves result.1 (λ steps. MatchResult result.0
        (λ done. done.0.history.items ≡ steps)
        (λ halted. IfSome halted.history (λ history. history.items ≡ steps))) }
{
    let run = Running {
        rt,
        alloc,
        serve,
        routing,
    };
    let (answer, rest) = run.watched();
    match answer {
        Ok(account) => {
            let ran = Ran::of(&account);
            (Ok((account, ran)), rest)
        }
        Err(halted) => (Err(halted), rest),
    }
}
