//! A run over TCP whose history is written while it goes on.

ghost use Rattle.std.specs.Prelude.{◌≡◌, ◌+◌, ◌≤◌, None, Some, length, IfErr, IfOk, IfSome};
ghost use Rattle.gn_rules.specs.Limits.{IsCrew, most_links};
ghost use Rattle.gn_journal.specs.Rings.{name_of};
ghost use Rattle.gn_service.specs.Tallies.{tallies_of};
ghost use Rattle.gn_load.specs.declared.serve_fault.ServeFault.TheVariants.{Run};
ghost use Rattle.gn_load.specs.Journalled.{IsAnsweredBy, IsFresh, IsJournalled, fault_after, of_print};

use crate::fresh::Fresh;
use crate::serve_fault::ServeFault;
use crate::serve_halted::ServeHalted;
use crate::writing::{Begun, Writing, finish_run};
use gn_io::Sink;
use gn_journal::{Journal, Naming};
use gn_printed::PrintFault;
use gn_service::{
    Account, Halted, Host, Ran, Routing, RunFault, Serve, TcpReader, TcpWriter, Watch, serve_by,
    tallies_of,
};
use gn_table_router::{Configuring, TableRouter};
use std::alloc::{Allocator, Global};
use std::marker::{Brand, PhantomData};

/// A run that hasn't begun.
pub(crate) fn unbegun<A: Allocator>(fault: RunFault) -> ServeHalted<A>
    ensures { (result.fault ≡ Run fault) × (result.history ≡ None) × (result.ran ≡ None) }
{
    ServeHalted {
        fault: ServeFault::Run(fault),
        history: None,
        links: None,
        ran: None,
    }
}

/// The fault of a serve whose text couldn't be written for this.
pub(crate) fn of_print(fault: PrintFault) -> ServeFault
    ensures { result ≡ of_print fault }
{
    match fault {
        PrintFault::Write => ServeFault::Write,
        PrintFault::NoMemory => ServeFault::Run(RunFault::NoMemory),
    }
}

/// The fault of a serve whose run stopped at this one, and whose text was written while it went on, or couldn't be.
fn fault_after(fault: RunFault, printed: Result<(), PrintFault>) -> ServeFault
    ensures { result ≡ fault_after fault printed }
{
    match printed {
        Ok(()) => ServeFault::Run(fault),
        Err(why) => of_print(why),
    }
}

/// The run that stopped so. Its fault is its own, unless its text couldn't be written while it went on.
pub(crate) fn stopped<A: Allocator>(
    halted: Halted<A>,
    printed: Result<(), PrintFault>,
) -> ServeHalted<A>
    ensures fault { result.fault ≡ fault_after halted.fault printed }
    ensures same { (result.history ≡ halted.history) × (result.links ≡ halted.links) × (result.ran ≡ None) }
{
    let Halted {
        fault,
        history,
        links,
    } = halted;
    let fault = fault_after(fault, printed);
    ServeHalted {
        fault,
        history,
        links,
        ran: None,
    }
}

/// The run of this account, whose text couldn't be written whole for this.
fn unwritten<'s, A: Allocator + Copy>(
    alloc: A,
    account: Account<TcpReader<'s>, TcpWriter, A>,
    ran: Ran<A>,
    why: PrintFault,
) -> ServeHalted<A>
    ensures fault { result.fault ≡ of_print why }
    ensures same { (result.history ≡ Some account.entry.history) × (result.ran ≡ Some ran) }
    ensures tallies { IfSome result.links (λ tallies. tallies.items ≡ tallies_of account.entry.links.items) }
{
    let links = tallies_of(alloc, &account.links);
    let Account {
        history,
        links: _,
        workers: _,
        house: _,
        stats: _,
    } = account;
    ServeHalted {
        fault: of_print(why),
        history: Some(history),
        links,
        ran: Some(ran),
    }
}

/// What is answered by a run that answered so, whose text was written whole, or couldn't be for this.
fn answered<'s, A: Allocator + Copy>(
    alloc: A,
    answer: Result<(Account<TcpReader<'s>, TcpWriter, A>, Ran<A>), Halted<A>>,
    printed: Result<(), PrintFault>,
) -> Result<(Account<TcpReader<'s>, TcpWriter, A>, Ran<A>), ServeHalted<A>>
    ensures answered { IsAnsweredBy (λ done. done.0.history) (λ done. done.1) answer.entry printed result }
    ensures tallies { IfErr result (λ halted. IfSome halted.links (λ tallies.
        IfOk answer.entry (λ done. tallies.items ≡ tallies_of done.0.links.items))) }
{
    match answer {
        Ok((account, ran)) => match printed {
            Ok(()) => Ok((account, ran)),
            Err(why) => Err(unwritten(alloc, account, ran, why)),
        },
        Err(halted) => Err(stopped(halted, printed)),
    }
}

/// Runs a router as `serve_on` does, and writes its history, which `audit` reads, while the run goes on: a step that was made is written
/// once nobody makes another, or a block is full. Nobody keeps the steps: the
/// account comes back with what is remembered of the run. At a fault what was written is a prefix of the history; all of it, where that
/// stands, unless a write failed (no clause says so).
pub fn serve_journalled<'s, R: Host, G: Watch + Sync, W: Sink + Send>(
    rt: &R,
    alloc: Global,
    serve: &Serve<'_, 's, G>,
    sink: &mut W,
) -> Result<(Account<TcpReader<'s>, TcpWriter>, Ran), ServeHalted>
    requires few { serve.now.accept + length serve.now.peers.now ≤ most_links }
    ensures { let s = serve.now in
        IsJournalled s.batch s.config.now s.peers.now s.accept s.workers (W.state sink.old) (W.state sink.new) result }
{
    match Fresh::for_crew(alloc, serve.config, serve.workers) {
        Ok(fresh) => serve_named::<Brand, R, G, W>(rt, alloc, serve, fresh, sink),
        Err(fault) => Err(unbegun(fault)),
    }
}

/// The same over the ring that `N` names.
fn serve_named<
    's,
    N: Naming<Global> + Configuring + Send,
    R: Host,
    G: Watch + Sync,
    W: Sink + Send,
>(
    rt: &R,
    alloc: Global,
    serve: &Serve<'_, 's, G>,
    fresh: Fresh,
    sink: &mut W,
) -> Result<(Account<TcpReader<'s>, TcpWriter>, Ran), ServeHalted>
    requires named { (N.ring ≡ Some (name_of fresh.producer.end)) × (N.config ≡ Some serve.now.config.now) }
    requires fresh { IsFresh serve.now.config.now fresh }
    requires few { (serve.now.accept + length serve.now.peers.now ≤ most_links) × IsCrew serve.now.workers }
    ensures { let s = serve.now in
        IsJournalled s.batch s.config.now s.peers.now s.accept s.workers (W.state sink.old) (W.state sink.new) result }
{
    let Ok((core, scribe)) = fresh.over::<N>(alloc, serve.config) else {
        return Err(unbegun(RunFault::NoMemory));
    };
    let course = Writing::<W, N> {
        scribe,
        sink,
        of: PhantomData,
    };
    let routing = Routing { core, course };
    let (answer, begun) = serve_by::<
        TableRouter<Global, Journal<N>, N>,
        Writing<W, N>,
        G,
        Global,
        R,
    >(rt, alloc, serve, routing);
    serve.watch.end();
    let Begun { sink, waiting } = begun;
    let printed = finish_run(&answer, waiting, sink);
    answered(alloc, answer, printed)
}
