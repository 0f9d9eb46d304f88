//! A capture, loaded: its links are run, and the history of the run is written while it goes on.

ghost use Rattle.std.specs.Prelude.{◌≡◌, ◌≤◌, Some, length, IfErr, IfSome, IsOk, OnOk};
ghost use Rattle.std.specs.declared.alloc.Global.{Global as Heap};
ghost use Rattle.gn_rules.specs.Limits.{IsCrew, most_links};
ghost use Rattle.gn_journal.specs.Rings.{name_of};
ghost use Rattle.gn_io.specs.Input.{input_limit};
ghost use Rattle.gn_io.specs.Streams.{NoneFailed, streams, text_between};
ghost use Rattle.gn_load.specs.Faults.{IsLoadFault};
ghost use Rattle.gn_load.specs.Journalled.{IsFresh};
ghost use Rattle.gn_load.specs.JournalledLoads.{HasStoppedAt, IsJournalledLoad, IsLoadedBy};
ghost use Rattle.gn_load.specs.Loads.{AppendsLoad, load_of};

use crate::fault::LoadFault;
use crate::fresh::Fresh;
use crate::loads::read_load;
use crate::writing::{Begun, Writing, finish_run};
use gn_io::{Sink, Source, read_input};
use gn_journal::Naming;
use gn_printed::PrintFault;
use gn_rules::MOST_WORKERS;
use gn_service::{Asked, Batch, Halted, MemoryLink, Routing, RunFault, Watch, run_by};
use gn_table_router::Configuring;
use std::alloc::Global;
use std::marker::{Brand, PhantomData};
use std::sync::Wait;
use std::thread::Threads;

/// How many workers run the links of a capture, who watches them, and how many packets are written to a link at once at most.
#[derive(Drop)]
pub struct Loading<'a, G> {
    pub workers: u32,
    pub watch: &'a G,
    pub batch: Batch,
}

/// A run, and its links.
#[derive(Drop)]
struct Load<'a, G> {
    asked: Asked<'a, G>,
    links: Vec<MemoryLink>,
}

/// What a load answers whose run answered so, and whose text was written, or couldn't be for this.
fn load_answer<T>(
    answer: &Result<T, Halted>,
    printed: Result<(), PrintFault>,
) -> Result<(), LoadFault>
    ensures { IsLoadedBy answer.now printed result }
{
    match (printed, answer) {
        (Ok(()), Ok(_)) => Ok(()),
        (Ok(()), Err(halted)) => Err(LoadFault::Run(halted.fault)),
        (Err(why), _) => Err(LoadFault::from(why)),
    }
}

/// Does what `load_watched` does, and writes the history while the run goes on: a step that was made is written once nobody makes
/// another, or a block is full. At a fault of the run what stands of the history is
/// written to its end, unless a write fails or memory is wanting.
pub fn load_journalled<R: Threads + Wait + Sync, G: Watch + Sync, S: Source, W: Sink + Send>(
    rt: &R,
    alloc: Global,
    loading: &Loading<'_, G>,
    source: &mut S,
    sink: &mut W,
) -> Result<(), LoadFault>
    ensures short { OnOk result (
        IfSome (text_between (S.state source.old) (S.state source.new)) (λ text. length text ≤ input_limit)) }
    ensures valid { OnOk result (
        IfSome (text_between (S.state source.old) (S.state source.new)) (λ text. IsOk (load_of Heap text))) }
    ensures written { OnOk result (IfSome (text_between (S.state source.old) (S.state source.new)) (λ text.
        AppendsLoad Heap loading.now.batch loading.now.workers text
        (W.state sink.old).written (W.state sink.new).written)) }
    ensures unfailed { OnOk result (NoneFailed
        (streams (S.state source.old) (S.state source.new) (W.state sink.old) (W.state sink.new))) }
    ensures stopped { IfErr result (λ fault.
        HasStoppedAt fault (text_between (S.state source.old) (S.state source.new))
        (W.state sink.old).written (W.state sink.new).written) }
    ensures fault { IfErr result (λ fault. IsLoadFault loading.now.workers fault (load_of Heap)
        (streams (S.state source.old) (S.state source.new) (W.state sink.old) (W.state sink.new))) }
{
    let text = read_input(alloc, source)?;
    let (config, links) = read_load(alloc, text)?;
    let asked = Asked {
        config: &config,
        workers: loading.workers,
        gate: loading.watch,
        batch: loading.batch,
    };
    write_load(rt, alloc, Load { asked, links }, sink)
}

/// Runs these links, and writes the history.
fn write_load<R: Threads + Wait + Sync, G: Watch + Sync, W: Sink + Send>(
    rt: &R,
    alloc: Global,
    load: Load<'_, G>,
    sink: &mut W,
) -> Result<(), LoadFault>
    requires few { length load.links.items ≤ most_links }
    ensures { let asked = load.entry.asked in IsJournalledLoad asked.batch asked.config.now load.entry.links.items
        asked.workers (W.state sink.old) (W.state sink.new) result }
{
    let (config, workers) = (load.asked.config, load.asked.workers);
    if workers == 0 || workers > MOST_WORKERS {
        return Err(LoadFault::Run(RunFault::BadWorkers));
    }
    let fresh = Fresh::of(alloc, config)?;
    load_named::<Brand, R, G, W>(rt, alloc, load, fresh, sink)
}

/// The same over the ring that `N` names.
fn load_named<
    N: Naming<Global> + Configuring + Send,
    R: Threads + Wait + Sync,
    G: Watch + Sync,
    W: Sink + Send,
>(rt: &R, alloc: Global, load: Load<'_, G>, fresh: Fresh, sink: &mut W) -> Result<(), LoadFault>
    requires named { (N.ring ≡ Some (name_of fresh.producer.end)) × (N.config ≡ Some load.asked.config.now) }
    requires fresh { IsFresh load.asked.config.now fresh }
    requires few { (length load.links.items ≤ most_links) × IsCrew load.asked.workers }
    ensures { let asked = load.entry.asked in IsJournalledLoad asked.batch asked.config.now load.entry.links.items
        asked.workers (W.state sink.old) (W.state sink.new) result }
{
    let Load { asked, links } = load;
    let (core, scribe) = fresh.over::<N>(alloc, asked.config)?;
    let course = Writing::<W, N> {
        scribe,
        sink,
        of: PhantomData,
    };
    let routing = Routing { core, course };
    let watch = asked.gate;
    watch.begin(links.len());
    let (answer, begun) = run_by::<_, Writing<W, N>, _, _, _, R>(rt, alloc, &asked, links, routing);
    watch.end();
    let Begun { sink, waiting } = begun;
    let printed = finish_run(&answer, waiting, sink);
    let loaded = load_answer(&answer, printed);
    watch.leave(answer);
    loaded
}
