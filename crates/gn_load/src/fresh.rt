//! A run that hasn't begun, whose history is to be written while it goes on.

ghost use Rattle.std.specs.Prelude.{◌≡◌, ◌↔◌, [], Some, IfErr, IfOk};
ghost use Rattle.rtrb.specs.Ring.{received};
ghost use Rattle.gn_journal.specs.Rings.{name_of};
ghost use Rattle.gn_rules.specs.Limits.{IsCrew};
ghost use Rattle.gn_start.specs.declared.fault.RunFault.TheVariants.{BadWorkers, NoMemory};
ghost use Rattle.gn_text.specs.Header.{header_text};
ghost use Rattle.gn_numbers.specs.declared.titles.Text.TheVariants.{History};
ghost use Rattle.gn_load.specs.Journalled.{IsFresh};

use gn_io::Block;
use gn_journal::{Journal, Naming};
use gn_replay::history_heading;
use gn_rules::{Config, MOST_WORKERS, Step};
use gn_scribe::Scribe;
use gn_service::RunFault;
use gn_table_router::{Configuring, TableRouter};
use rtrb::{Consumer, Producer, RingBuffer};
use std::alloc::{AllocError, Global};

/// How many steps a ring has places for: more than wait at most, and one more of each actor of a run of 256 links and 64 workers.
const PLACES: usize = 4096;

/// The ring of a run that hasn't begun, and how the text of its history begins.
#[derive(Drop)]
pub(crate) struct Fresh {
    pub heading: Block,
    pub producer: Producer<Step>,
    pub consumer: Consumer<Step>,
}

impl Fresh {
    /// Those of a run by this configuration. An `Err` is out of memory.
    pub fn of(alloc: Global, config: &Config) -> Result<Fresh, AllocError>
        ensures { IfOk result (λ fresh. IsFresh config.now fresh) }
    {
        let heading = history_heading(alloc, config)?;
        let (producer, consumer) = RingBuffer::new(alloc, PLACES)?;
        Ok(Fresh {
            heading,
            producer,
            consumer,
        })
    }

    /// Those of a run of so many workers, 1 to 64. An `Err` is `BadWorkers`, or out of memory.
    pub fn for_crew(alloc: Global, config: &Config, workers: u32) -> Result<Fresh, RunFault>
        ensures fresh { IfOk result (λ fresh. IsFresh config.now fresh × IsCrew workers) }
        ensures bad_workers { IfErr result (λ fault. (fault ≡ BadWorkers) ↔ (¬ IsCrew workers)) }
        ensures fault { IfErr result (λ fault. IsCrew workers → fault ≡ NoMemory) }
    {
        if workers == 0 || workers > MOST_WORKERS {
            return Err(RunFault::BadWorkers);
        }
        Ok(Fresh::of(alloc, config)?)
    }

    /// The router of the run and the scribe of its history, over the ring that `N` names. An `Err` is out of memory.
    pub fn over<N: Naming<Global> + Configuring>(
        self,
        alloc: Global,
        config: &Config,
    ) -> Result<(TableRouter<Global, Journal<N>, N>, Scribe), AllocError>
        requires fresh { IsFresh config.now self }
        requires ring { (N.ring ≡ Some (name_of self.producer.end)) × (N.config ≡ Some config.now) }
        ensures empty { IfOk result (λ made. made.0.router.store.steps ≡ []) }
        ensures named { IfOk result (λ made. N.ring ≡ Some (name_of made.1.steps.end)) }
        ensures scribe { IfOk result (λ made.
            (received made.1.steps ≡ []) × (made.1.block ≡ header_text History config.now)) }
    {
        let Fresh {
            heading,
            producer,
            consumer,
        } = self;
        let router = TableRouter::over(alloc, config, Journal::<N>::new(producer))?;
        Ok((router.named::<N>(), Scribe::new(consumer, heading)))
    }
}
