//! A run over TCP that takes any number of callers, whose history is written while it goes on.

ghost use Rattle.std.specs.Prelude.{◌≡◌, false, is_some, Some};
ghost use Rattle.gn_rules.specs.Limits.{IsCrew};
ghost use Rattle.gn_journal.specs.Rings.{name_of};
ghost use Rattle.gn_load.specs.Any.{IsJournalledAfter, IsJournalledAny, IsJournalledBy, IsPastAccount};
ghost use Rattle.gn_load.specs.Journalled.{IsAnsweredBy, IsFresh, of_print};

use crate::fresh::Fresh;
use crate::journalled::{of_print, stopped, unbegun};
use crate::serve_halted::ServeHalted;
use crate::writing::{Begun, Writing, finish_run};
use gn_io::Sink;
use gn_journal::{Journal, Naming};
use gn_printed::PrintFault;
use gn_service::{
    Any, Halted, Host, NoPast, OpenAccount, Parting, Past, Ran, Routing, RunFault, Serve,
    TcpReader, TcpWriter, Watch, serve_past,
};
use gn_table_router::{Configuring, TableRouter};
use std::alloc::{Allocator, Global};
use std::marker::{Brand, PhantomData};

/// The run of this account, whose text couldn't be written whole for this.
fn unwritten<'s, A: Allocator>(
    account: OpenAccount<TcpReader<'s>, TcpWriter, A>,
    ran: Ran<A>,
    why: PrintFault,
) -> ServeHalted<A>
    ensures fault { result.fault ≡ of_print why }
    ensures same { (result.history ≡ Some account.entry.history) × (result.ran ≡ Some ran) }
{
    let OpenAccount {
        history,
        links: _,
        workers: _,
        house: _,
        stats: _,
    } = account;
    ServeHalted {
        fault: of_print(why),
        history: Some(history),
        links: None,
        ran: Some(ran),
    }
}

/// What is answered by a run that answered so, whose text was written whole, or couldn't be for this.
fn answered<'s, A: Allocator>(
    answer: Result<(OpenAccount<TcpReader<'s>, TcpWriter, A>, Ran<A>), Halted<A>>,
    printed: Result<(), PrintFault>,
) -> Result<(OpenAccount<TcpReader<'s>, TcpWriter, A>, Ran<A>), ServeHalted<A>>
    ensures { IsAnsweredBy (λ done. done.0.history) (λ done. done.1) answer.entry printed result }
{
    match answer {
        Ok((account, ran)) => match printed {
            Ok(()) => Ok((account, ran)),
            Err(why) => Err(unwritten(account, ran, why)),
        },
        Err(halted) => Err(stopped(halted, printed)),
    }
}

/// Runs a router as `serve_any` does, and writes its history as `serve_journalled` does.
pub fn serve_any_journalled<
    's,
    R: Host,
    G: Watch + Sync,
    T: Parting<Global> + Sync,
    W: Sink + Send,
>(
    rt: &R,
    alloc: Global,
    serve: &Serve<'_, 's, G, Any<'_, T>>,
    sink: &mut W,
) -> Result<(OpenAccount<TcpReader<'s>, TcpWriter>, Ran), ServeHalted>
    ensures { let s = serve.now in
        IsJournalledAny s.accept.again (is_some s.accept.pings) s.batch s.config.now s.peers.now s.workers
        (W.state sink.old) (W.state sink.new) result }
{
    serve_past_journalled(rt, alloc, serve, NoPast, sink)
}

/// Does the same, and goes on with the steps of before, as `serve_past` does: they are the first of the history.
pub fn serve_past_journalled<
    's,
    R: Host,
    G: Watch + Sync,
    T: Parting<Global> + Sync,
    P: Past + Send,
    W: Sink + Send,
>(
    rt: &R,
    alloc: Global,
    serve: &Serve<'_, 's, G, Any<'_, T>>,
    past: P,
    sink: &mut W,
) -> Result<(OpenAccount<TcpReader<'s>, TcpWriter>, Ran), ServeHalted>
    ensures resumed { let s = serve.now in
        IsJournalledAfter s.accept.again s.config.now s.peers.now s.workers
        (W.state sink.old) (W.state sink.new) result }
    ensures any { let s = serve.now in P.recalls past ≡ false →
        IsJournalledAny s.accept.again (is_some s.accept.pings) s.batch s.config.now s.peers.now s.workers
        (W.state sink.old) (W.state sink.new) result }
{
    match Fresh::for_crew(alloc, serve.config, serve.workers) {
        Ok(fresh) => {
            serve_past_named::<Brand, R, G, T, P, W>(rt, alloc, serve, past, fresh, sink)
        }
        Err(fault) => Err(unbegun(fault)),
    }
}

/// The same over the ring that `N` names.
fn serve_past_named<
    's,
    N: Naming<Global> + Configuring + Send,
    R: Host,
    G: Watch + Sync,
    T: Parting<Global> + Sync,
    P: Past + Send,
    W: Sink + Send,
>(
    rt: &R,
    alloc: Global,
    serve: &Serve<'_, 's, G, Any<'_, T>>,
    past: P,
    fresh: Fresh,
    sink: &mut W,
) -> Result<(OpenAccount<TcpReader<'s>, TcpWriter>, Ran), ServeHalted>
    requires named { (N.ring ≡ Some (name_of fresh.producer.end)) × (N.config ≡ Some serve.now.config.now) }
    requires fresh { IsFresh serve.now.config.now fresh }
    requires few { IsCrew serve.now.workers }
    ensures { let s = serve.now in
        IsJournalledBy (λ account. IsPastAccount (P.recalls past) s.accept.again (is_some s.accept.pings) s.batch
        s.config.now s.peers.now s.workers account)
        s.config.now s.workers (W.state sink.old) (W.state sink.new) result }
{
    let Ok((core, scribe)) = fresh.over::<N>(alloc, serve.config) else {
        return Err(unbegun(RunFault::NoMemory));
    };
    let course = Writing::<W, N> {
        scribe,
        sink,
        of: PhantomData,
    };
    let routing = Routing { core, course };
    let (answer, begun) = serve_past::<
        TableRouter<Global, Journal<N>, N>,
        Writing<W, N>,
        G,
        T,
        P,
        Global,
        R,
    >(rt, alloc, serve, routing, past);
    serve.watch.end();
    let Begun { sink, waiting } = begun;
    let printed = finish_run(&answer, waiting, sink);
    answered(answer, printed)
}
