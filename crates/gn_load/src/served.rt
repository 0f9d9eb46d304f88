//! A run over TCP, and the history of it, written.

ghost use Rattle.std.specs.Prelude.{◌≡◌, ◌≢◌, ◌+◌, ◌≤◌, [], true, length, reverse, IfSome, OnOk};
ghost use Rattle.gn_rules.specs.Answer.{IsLegal};
ghost use Rattle.std.specs.Io.KnownBytes.{Appends};
ghost use Rattle.gn_capture.specs.Histories.{history_text};
ghost use Rattle.gn_rules.specs.Limits.{most_links};
ghost use Rattle.gn_start.specs.declared.fault.RunFault.TheVariants.{HistoryFull};
ghost use Rattle.gn_load.specs.Served.{HasKept, IsHistoryKept, IsHistoryServed};

use crate::printed::print_history;
use crate::serve_fault::ServeFault;
use crate::serve_stopped::ServeStopped;
use gn_io::Sink;
use gn_printed::PrintFault;
use gn_rules::{Config, Historian};
use gn_service::{
    Host, Ran, Report, RunFault, Serve, Stopped, TcpReader, TcpWriter, Watch, serve_kept,
};
use std::alloc::Allocator;

/// Writes what stands of the history of a run that stopped at this fault after its first step, where it is to be kept: all of it, but
/// at an `Err`.
fn print_kept<A: Allocator + Copy, W: Sink>(
    alloc: A,
    config: &Config,
    is_kept: bool,
    stopped: &Stopped<A>,
    sink: &mut W,
) -> Result<(), PrintFault>
    requires legal { IfSome stopped.now.history (λ steps. IsLegal config.now (reverse steps.items)) }
    requires full { stopped.now.fault ≡ HistoryFull
        → IfSome stopped.now.history (λ steps. length steps.items ≡ config.now.numbers.steps) }
    ensures whole { OnOk result (is_kept ≡ true → IfSome stopped.now.history (λ steps. steps.items ≢ []
        → Appends (W.state sink.old).written (W.state sink.new).written (history_text config.now steps.items))) }
    ensures kept { HasKept A is_kept config.now stopped.now.fault
        (W.state sink.old).written (W.state sink.new).written }
{
    match &stopped.history {
        Some(steps) if is_kept && !steps.is_empty() => print_history(alloc, config, steps, sink),
        _ => Ok(()),
    }
}

/// Runs a router as `serve_on` does, and writes its history, which `audit` reads, in blocks once the run has ended. The report
/// comes back. Out of memory and `Write` may leave a prefix of the history. Where the run stopped at a fault and its history is to be
/// kept, what stands of it is written all the same, up to where memory or a write fails; else any other `Err` leaves nothing.
pub fn serve_history<
    's,
    C: Historian<A> + Drop + Send,
    A: Allocator + Copy + Send + Sync,
    R: Host,
    G: Watch + Sync,
    W: Sink,
>(
    rt: &R,
    alloc: A,
    serve: &Serve<'_, 's, G>,
    sink: &mut W,
) -> Result<Report<TcpReader<'s>, TcpWriter, A>, ServeFault>
    requires few { serve.now.accept + length serve.now.peers.now ≤ most_links }
    ensures { let s = serve.now in IsHistoryServed s.batch s.config.now s.peers.now s.accept s.workers
        s.limits.is_kept (W.state sink.old) (W.state sink.new) result }
{
    match serve_history_kept::<C, A, R, G, W>(rt, alloc, serve, sink) {
        Ok((report, _)) => Ok(report),
        Err(stopped) => Err(stopped.fault),
    }
}

/// Does the same. The report comes with what is remembered of the run, and a fault with what stands of the history, which is legal by
/// the configuration of the call, and has as many steps as it may have where the fault is a full history.
pub fn serve_history_kept<
    's,
    C: Historian<A> + Drop + Send,
    A: Allocator + Copy + Send + Sync,
    R: Host,
    G: Watch + Sync,
    W: Sink,
>(
    rt: &R,
    alloc: A,
    serve: &Serve<'_, 's, G>,
    sink: &mut W,
) -> Result<(Report<TcpReader<'s>, TcpWriter, A>, Ran<A>), ServeStopped<A>>
    requires few { serve.now.accept + length serve.now.peers.now ≤ most_links }
    ensures { let s = serve.now in IsHistoryKept s.batch s.config.now s.peers.now s.accept s.workers
        s.limits.is_kept (W.state sink.old) (W.state sink.new) result }
{
    let answer = serve_kept::<C, G, A, R>(rt, alloc, serve);
    serve.watch.end();
    let (report, ran) = match answer {
        Ok(done) => done,
        Err(stopped) => {
            // that it can't be written changes no fault
            let _ = print_kept(alloc, serve.config, serve.limits.is_kept, &stopped, sink);
            return Err(ServeStopped {
                fault: ServeFault::Run(stopped.fault),
                history: stopped.history,
                ran: None,
            });
        }
    };
    match print_history(alloc, serve.config, &report.history, sink) {
        Ok(()) => Ok((report, ran)),
        Err(PrintFault::Write) => Err(ServeStopped {
            fault: ServeFault::Write,
            history: Some(report.history),
            ran: Some(ran),
        }),
        Err(PrintFault::NoMemory) => Err(ServeStopped {
            fault: ServeFault::Run(RunFault::NoMemory),
            history: Some(report.history),
            ran: Some(ran),
        }),
    }
}
