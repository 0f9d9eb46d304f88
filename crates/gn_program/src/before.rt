//! The history that a serve goes on with.

ghost use Rattle.std.specs.Prelude.{◌≡◌, ℕ, IfErr, true};
ghost use Rattle.gn_start.specs.Faults.{IsArrivingFault};
ghost use Rattle.gn_start.specs.declared.fault.RunFault.TheVariants.{NoMemory};

use crate::fault::Fault;
use crate::left_open::LeftOpen;
use crate::measured::Measured;
use crate::misfit::Misfit;
use crate::told::Told;
use gn_capture::read_history_line;
use gn_comments::Standing;
use gn_io::Source;
use gn_metrics::{COUNTERS, Meters};
use gn_replay::ReplayFault;
use gn_rules::{
    Config, Counter, Event, Receipt, Refusal, Reply, Step, is_same_config, is_same_reply,
};
use gn_service::Past;
use gn_start::Recall;
use gn_stream::{LineReader, StreamFault, next_numbered, read_history_header};
use gn_text::{CaptureFault, CaptureRefusal, Cause};
use gn_threads::RunFault;
use std::alloc::{Allocator, Global};
use std::sync::OnceLock;

/// How many lines a history begins with.
const HEADER: u64 = 3;

/// What becomes known of a history that is read: how many of its lines stand, once all are read well; or what is wrong with it.
#[derive(Drop)]
pub(crate) struct Reread {
    pub standing: Standing,
    misfit: OnceLock<Misfit>,
}

impl Reread {
    /// Nothing yet.
    pub(crate) fn new() -> Self {
        Reread {
            standing: Standing::unknown(),
            misfit: OnceLock::new(),
        }
    }

    /// Tells what is wrong with it, where something is.
    pub(crate) fn tell(&self, told: &mut Told) {
        if let Some(misfit) = self.misfit.get() {
            *told = Told::Before(*misfit);
        }
    }

    /// This is wrong with it. A run that ends for it has no fault of its own.
    fn stop(&self, misfit: Misfit) -> RunFault
        ensures { result ≡ NoMemory }
    {
        let _ = self.misfit.try_set(misfit);
        RunFault::NoMemory
    }
}

/// How far a history is read.
#[derive(Clone, Copy)]
enum Phase {
    Header,
    Steps,
    Over,
}

/// A history whose steps are made again as they are read; then what it has left open is ended.
#[derive(Drop)]
pub(crate) struct Before<'a, S> {
    alloc: Global,
    /// The configuration that it has to have.
    config: &'a Config,
    lines: LineReader,
    source: Measured<S>,
    reread: &'a Reread,
    /// Where it is counted, if it is anywhere.
    meters: Option<&'a Meters>,
    phase: Phase,
    /// The number of the line that was read last.
    line: u64,
    /// How many lines stand there that aren't skipped.
    count: u64,
    counts: [u32; COUNTERS],
    /// How many of its steps aren't packets sent, as those that a run counts as made.
    made: u64,
    open: LeftOpen,
}

/// Whether no title was found, as where nothing but skipped lines was read.
fn lacks_title(fault: StreamFault) -> bool {
    matches!(
        fault,
        StreamFault::Text(CaptureRefusal::Fault(CaptureFault {
            cause: Cause::Header,
            ..
        }))
    )
}

impl<'a, S: Source> Before<'a, S> {
    /// The history that this source gives, of a router of this configuration.
    pub(crate) fn new(
        alloc: Global,
        config: &'a Config,
        source: S,
        reread: &'a Reread,
        meters: Option<&'a Meters>,
    ) -> Self {
        Before {
            alloc,
            config,
            lines: LineReader::of_cut(alloc),
            source: Measured::new(source),
            reread,
            meters,
            phase: Phase::Header,
            line: 0,
            count: 0,
            counts: [0; COUNTERS],
            made: 0,
            open: LeftOpen::new(alloc),
        }
    }

    /// It can't be read for this.
    fn stop_at(&self, fault: StreamFault) -> RunFault
        ensures { result ≡ NoMemory }
    {
        self.reread
            .stop(Misfit::Unread(Fault::from(ReplayFault::from(fault))))
    }

    /// All is read, where its last line is whole.
    fn end(&mut self) -> Result<(), RunFault>
        ensures { IfErr result (λ fault. fault ≡ NoMemory) }
    {
        if self.source.is_cut() {
            let line = self.lines.next().saturating_sub(1);
            let whole = self.source.whole();
            return Err(self.reread.stop(Misfit::Cut { line, whole }));
        }
        self.phase = Phase::Over;
        if let Some(meters) = self.meters {
            meters.go_on(&self.counts, self.made);
        }
        self.reread.standing.set(self.count);
        Ok(())
    }

    /// Its steps come next, where it has the configuration that it has to have.
    fn begin(&mut self, config: &Config) -> Result<(), RunFault>
        ensures { IfErr result (λ fault. fault ≡ NoMemory) }
    {
        if !is_same_config(config, self.config) {
            return Err(self.reread.stop(Misfit::OtherOptions));
        }
        self.phase = Phase::Steps;
        self.count = HEADER;
        Ok(())
    }

    /// Reads its first lines, if there are any.
    fn read_header(&mut self) -> Result<(), RunFault>
        ensures { IfErr result (λ fault. fault ≡ NoMemory) }
    {
        match read_history_header(self.alloc, &mut self.lines, &mut self.source) {
            Ok(config) => self.begin(&config),
            Err(fault)
                if self.lines.has_added_end() && (self.source.is_cut() || lacks_title(fault)) => {
                self.end()
            }
            Err(fault) => Err(self.stop_at(fault)),
        }
    }

    /// Reads the step of its next line; `None`: the line `end`.
    fn read_line<A: Allocator + Copy>(&mut self, alloc: A) -> Result<Option<Step<A>>, StreamFault> {
        let Some(number) = next_numbered(&mut self.lines, &mut self.source)? else {
            return Ok(None);
        };
        self.line = number;
        Ok(read_history_line(alloc, &(number, self.lines.line()))?)
    }

    /// All its steps are read, and its last line isn't to be `end`.
    fn end_steps(&mut self) -> Result<(), RunFault>
        ensures { IfErr result (λ fault. fault ≡ NoMemory) }
    {
        if !self.lines.has_added_end() {
            return Err(self.reread.stop(Misfit::Ended));
        }
        self.end()
    }

    /// Reads its next step, if there is one.
    fn read_step<A: Allocator + Copy>(&mut self, alloc: A) -> Result<Option<Recall<A>>, RunFault>
        ensures { IfErr result (λ fault. fault ≡ NoMemory) }
    {
        match self.read_line(alloc) {
            Ok(Some(step)) => {
                self.count = self.count.saturating_add(1);
                Ok(Some(recall_of(step)))
            }
            Ok(None) => {
                self.end_steps()?;
                Ok(None)
            }
            Err(fault) => Err(self.stop_at(fault)),
        }
    }

    /// Counts a reply.
    fn count_reply<A: Allocator>(&mut self, reply: &Reply<A>) {
        let counter = Counter::of(reply);
        if counter != Counter::Sent {
            self.made = self.made.saturating_add(1);
        }
        for place in 0..COUNTERS {
            if Counter::ALL[place] == counter {
                self.counts[place] = self.counts[place].saturating_add(1);
            }
        }
    }

    /// A step is made again, where the rules have answered as its line says.
    fn compare<A: Allocator>(
        &mut self,
        reply: &Reply<A>,
        receipt: &Receipt<A>,
    ) -> Result<(), RunFault>
        ensures { IfErr result (λ fault. fault ≡ NoMemory) }
    {
        if !is_same_reply(reply, &receipt.reply) {
            return Err(self.reread.stop(Misfit::Wrong(self.line)));
        }
        self.count_reply(reply);
        self.open.add(&receipt.event, reply)?;
        Ok(())
    }

    /// Looks at what the rules answered to an event: to that of a step as its line says, or to one that ends what is left open.
    fn judge<A: Allocator>(
        &mut self,
        recall: &Recall<A>,
        answer: &Result<Receipt<A>, Refusal>,
    ) -> Result<(), RunFault>
        ensures { IfErr result (λ fault. (links workers : ℕ) → IsArrivingFault true links workers fault) }
    {
        match (&recall.reply, answer) {
            (Some(reply), Ok(receipt)) => self.compare(reply, receipt),
            (None, Ok(_)) => {
                if let Some(meters) = self.meters {
                    meters.add_made();
                }
                Ok(())
            }
            (_, Err(Refusal::NoMemory)) => Err(RunFault::NoMemory),
            (None, Err(Refusal::HistoryFull)) => Err(RunFault::HistoryFull),
            (_, Err(_)) => Err(self.reread.stop(Misfit::Wrong(self.line))),
        }
    }
}

/// The recall of this step.
fn recall_of<A: Allocator>(step: Step<A>) -> Recall<A> {
    let Step { event, reply, .. } = step;
    Recall {
        event,
        reply: Some(reply),
    }
}

/// The recall of this event, if there is one, which ends what is left open.
fn end_of<A: Allocator>(event: Option<Event<A>>) -> Option<Recall<A>> {
    Some(Recall {
        event: event?,
        reply: None,
    })
}

impl<'a, S: Source + Drop> Past for Before<'a, S> {
    ghost recalls = { λ _. true };

    fn recall<A: Allocator + Copy>(&mut self, alloc: A) -> Result<Option<Recall<A>>, RunFault> {
        if matches!(self.phase, Phase::Header) {
            self.read_header()?;
        }
        if matches!(self.phase, Phase::Steps)
            && let Some(recall) = self.read_step(alloc)?
        {
            return Ok(Some(recall));
        }
        Ok(end_of(self.open.next_end()))
    }

    fn recalled<A: Allocator + Copy>(
        &mut self,
        recall: Recall<A>,
        answer: Result<Receipt<A>, Refusal>,
    ) -> Result<(), RunFault> {
        self.judge(&recall, &answer)
    }
}
