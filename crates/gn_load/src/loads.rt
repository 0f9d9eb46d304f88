//! A capture, loaded: its links are run, and the history of the run is written.

ghost use Rattle.std.specs.Prelude.{◌≤◌, length, IfOk, IfErr, IfSome, IsOk, OnOk};
ghost use Rattle.gn_capture.specs.Histories.{history_text};
ghost use Rattle.gn_io.specs.Input.{input_limit};
ghost use Rattle.gn_io.specs.Streams.{NoneFailed, streams, text_between};
ghost use Rattle.gn_rules.specs.Limits.{most_links};
ghost use Rattle.gn_text.specs.Faults.{IsRead};
ghost use Rattle.gn_text.specs.Settings.{settings_of};
ghost use Rattle.gn_load.specs.Faults.{IsLoadFault, IsRunLoadFault};
ghost use Rattle.gn_load.specs.Loads.{AppendsLoad, HasStopped, IsLoadText, load_of};

use crate::fault::LoadFault;
use crate::links::links_of;
use crate::printed::print_history;
use gn_capture::{Capture, read_capture};
use gn_io::{Sink, Source, read_input};
use gn_printed::PrintFault;
use gn_replay::ReplayFault;
use gn_rules::{Config, Historian};
use gn_service::{MemoryLink, MemoryReader, MemoryWriter, NoGate, Report, Watch, run};
use gn_text::CaptureRefusal;
use std::alloc::Allocator;
use std::sync::Wait;
use std::thread::Threads;

/// How a router is set up by a capture, and the links that its lines make. Of the capture only what these hold lasts.
pub(crate) fn read_load<A: Allocator + Copy>(
    alloc: A,
    text: Vec<u8, A>,
) -> Result<(Config, Vec<MemoryLink<A>, A>), CaptureRefusal>
    ensures read { IsRead (λ loaded. (settings_of loaded.0, loaded.1.items)) result (load_of A text.items) }
    ensures few { IfOk result (λ loaded. length loaded.1.items ≤ most_links) }
{
    let read = read_capture(alloc, &text);
    drop(text);
    let capture = read?;
    let made = links_of(alloc, &capture.lines);
    let Capture { config, lines } = capture;
    drop(lines);
    let links = made?;
    Ok((config, links))
}

/// How a router is set up that so many workers run over the links that a capture makes, and the report of the run.
fn run_links<
    A: Allocator + Copy + Send + Sync,
    C: Historian<A> + Drop + Send,
    R: Threads + Wait + Sync,
    G: Watch + Sync,
>(
    rt: &R,
    alloc: A,
    workers: u32,
    watch: &G,
    text: Vec<u8, A>,
) -> Result<(Config, Report<MemoryReader<A>, MemoryWriter<A>, A>), LoadFault>
    ensures history { IfOk result (λ ran. IsLoadText A 1 workers text.items (history_text ran.0 ran.1.history.items)) }
    ensures fault { IfErr result (λ fault. IsRunLoadFault workers fault (load_of A text.items)) }
{
    let (config, links) = read_load(alloc, text)?;
    watch.begin(links.len());
    let report = run::<C, _, _, A, R>(rt, alloc, &config, links, workers, watch)?;
    Ok((config, report))
}

/// Reads a capture of `join`, `open` and `data` lines whole, runs its links with so many workers, 1 to 64, until each link's
/// bytes are read and all that was queued to it is taken, and writes the history of the router, which `audit` reads. Each
/// link is one over memory with all its bytes, which are read 4,096 at a time.
///
/// Nothing is written before the run has ended, and then the history in blocks: out of memory and `Write` may leave a prefix
/// of it, any other `Err` leaves nothing. A line that isn't taken is stated where the capture has no other fault.
pub fn load<
    A: Allocator + Copy + Send + Sync,
    C: Historian<A> + Drop + Send,
    R: Threads + Wait + Sync,
    S: Source,
    W: Sink,
>(rt: &R, alloc: A, workers: u32, source: &mut S, sink: &mut W) -> Result<(), LoadFault>
    ensures short { OnOk result (
        IfSome (text_between (S.state source.old) (S.state source.new)) (λ text. length text ≤ input_limit)) }
    ensures valid { OnOk result (
        IfSome (text_between (S.state source.old) (S.state source.new)) (λ text. IsOk (load_of A text))) }
    ensures written { OnOk result (IfSome (text_between (S.state source.old) (S.state source.new)) (λ text.
        AppendsLoad A 1 workers text (W.state sink.old).written (W.state sink.new).written)) }
    ensures unfailed { OnOk result (NoneFailed
        (streams (S.state source.old) (S.state source.new) (W.state sink.old) (W.state sink.new))) }
    ensures stopped { IfErr result (λ fault.
        HasStopped A 1 workers fault (text_between (S.state source.old) (S.state source.new))
        (W.state sink.old).written (W.state sink.new).written) }
    ensures fault { IfErr result (λ fault. IsLoadFault workers fault (load_of A)
        (streams (S.state source.old) (S.state source.new) (W.state sink.old) (W.state sink.new))) }
{
    load_watched::<A, C, R, NoGate, S, W>(rt, alloc, workers, &NoGate, source, sink)
}

/// Does the same, and each worker passes this gate before it routes.
pub fn load_watched<
    A: Allocator + Copy + Send + Sync,
    C: Historian<A> + Drop + Send,
    R: Threads + Wait + Sync,
    G: Watch + Sync,
    S: Source,
    W: Sink,
>(rt: &R, alloc: A, workers: u32, watch: &G, source: &mut S, sink: &mut W) -> Result<(), LoadFault>
    ensures short { OnOk result (
        IfSome (text_between (S.state source.old) (S.state source.new)) (λ text. length text ≤ input_limit)) }
    ensures valid { OnOk result (
        IfSome (text_between (S.state source.old) (S.state source.new)) (λ text. IsOk (load_of A text))) }
    ensures written { OnOk result (IfSome (text_between (S.state source.old) (S.state source.new)) (λ text.
        AppendsLoad A 1 workers text (W.state sink.old).written (W.state sink.new).written)) }
    ensures unfailed { OnOk result (NoneFailed
        (streams (S.state source.old) (S.state source.new) (W.state sink.old) (W.state sink.new))) }
    ensures stopped { IfErr result (λ fault.
        HasStopped A 1 workers fault (text_between (S.state source.old) (S.state source.new))
        (W.state sink.old).written (W.state sink.new).written) }
    ensures fault { IfErr result (λ fault. IsLoadFault workers fault (load_of A)
        (streams (S.state source.old) (S.state source.new) (W.state sink.old) (W.state sink.new))) }
{
    let text = read_input(alloc, source)?;
    let answer = run_links::<A, C, R, G>(rt, alloc, workers, watch, text);
    watch.end();
    let (config, report) = answer?;
    let printed = print_history(alloc, &config, &report.history, sink);
    watch.leave(report);
    match printed {
        Ok(()) => Ok(()),
        Err(PrintFault::Write) => Err(LoadFault::Text(ReplayFault::Write)),
        Err(PrintFault::NoMemory) => Err(LoadFault::Text(ReplayFault::NoMemory)),
    }
}
