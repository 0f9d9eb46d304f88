//! How a serve is answered.

ghost use Rattle.std.specs.Prelude.{◌≡◌};
ghost use Rattle.gn_program.specs.Answers.{is_done, status_of};
ghost use Rattle.gn_program.specs.Serves.{IsIdOf, LeavesServe, ServesTo};

use crate::answer::{DONE, FAULT, write_fault};
use crate::calls::Calls;
use crate::ended::Ended;
use crate::fault::Fault;
use crate::scraping::meters_of;
use crate::serve::{Serve, ServeOptions, print_config};
use crate::serves::{Served, id_of, serve};
use crate::text::write_text;
use crate::told::Told;
use crate::unwatched::Unwatched;
use gn_io::Sink;
use gn_links::Watch;
use gn_load::ServeFault;
use gn_service::Host;
use gn_wire::Guid;
use std::alloc::Global;
use std::io::StdinLock;
use std::random::RandomSource;

/// The status after a serve, whose fault is written, or what is wrong with the history that it was to go on with, and below it what the
/// system said.
fn end_serve<F: Sink>(faults: &mut F, answer: Result<(), ServeFault>, told: Told) -> u8
    ensures { result ≡ status_of is_done answer }
{
    match answer {
        Ok(()) => DONE,
        Err(fault) => {
            if !told.is_misfit() {
                write_fault(faults, Fault::from(fault));
            }
            let _ = write_text(faults, told);
            FAULT
        }
    }
}

/// Serves under this watch, and says how that ended.
fn serve_watched<
    R: Host + Input<Reader = StdinLock<'static>> + RandomSource,
    G: Watch + Sync,
    W: Sink + Send,
    F: Sink + Send,
>(
    rt: &R,
    alloc: Global,
    serving: &ServeOptions,
    id: Guid,
    watch: &G,
    writer: &mut W,
    faults: &mut F,
) -> Ended
    requires { IsIdOf serving.now.servent id }
    ensures { ServesTo serving.now result.ran (W.state writer.old) (W.state writer.new) result.status }
{
    let calls = Calls::new(alloc, watch, serving.links, meters_of(rt, serving));
    let mut told = Told::Nothing;
    let Served { answer, ran } = serve(rt, alloc, serving, id, &calls, writer, faults, &mut told);
    let told = calls.told(&answer, told);
    let status = end_serve(faults, answer, told);
    Ended { status, ran }
}

impl Serve {
    /// Serves, says how that ended, and how far it is where that is asked for, or whom it lets go; or writes the words.
    pub(crate) fn run<
        R: Host + Input<Reader = StdinLock<'static>> + RandomSource,
        G: Watch + Sync,
        W: Sink + Send,
        F: Sink + Send,
    >(&self, rt: &R, alloc: Global, watch: &G, writer: &mut W, faults: &mut F) -> Ended
        ensures { LeavesServe self.now result.ran (W.state writer.old) (W.state writer.new) result.status }
    {
        let serving = match self {
            Serve::Run(serving) => serving,
            Serve::Config(serving) => {
                let status = print_config(alloc, serving, writer, faults);
                return Ended { status, ran: None };
            }
        };
        let Some(id) = id_of(rt, serving.servent) else {
            let status = write_fault(faults, Fault::NoRandomBytes);
            return Ended { status, ran: None };
        };
        if serving.progress {
            return serve_watched(rt, alloc, serving, id, watch, writer, faults);
        }
        let unwatched = Unwatched {
            watch,
            tells_floods: serving.report,
        };
        serve_watched(rt, alloc, serving, id, &unwatched, writer, faults)
    }
}
