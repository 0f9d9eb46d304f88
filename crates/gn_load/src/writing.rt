//! A history that is written while its run goes on.

ghost use Rattle.std.specs.Prelude.{◌≡◌, [], Err, MatchResult, Ok, Some, reverse};
ghost use Rattle.rtrb.specs.Ring.{received};
ghost use Rattle.gn_journal.specs.Rings.{name_of};
ghost use Rattle.gn_rules.specs.declared.config.Config.{Config};
ghost use Rattle.gn_rules.specs.Answer.{IsLegal};
ghost use Rattle.gn_scribe.specs.Written.{HasEnded, HasFollowed};
ghost use Rattle.gn_load.specs.Journalled.{HasFinishedRun, HasStoppedWriting};

use gn_io::Sink;
use gn_journal::{Journal, Naming};
use gn_printed::{PrintFault, Waiting, finish_history};
use gn_report::Unkept;
use gn_room::{Following, Room};
use gn_rules::{RouterCore, Step};
use gn_scribe::Scribe;
use gn_service::Halted;
use gn_table_router::{Configuring, Exchange, TableRouter};
use gn_tables::Whole;
use gn_threads::Course;
use std::alloc::{Allocator, Global};
use std::marker::PhantomData;
use std::sync::Wait;

/// How many steps wait at most to be written before those who make more wait, too.
const MOST_WAITING: u64 = 2048;

/// A scribe of the ring that `N` names, which has taken no step yet, and where it writes.
#[derive(Drop)]
pub(crate) struct Writing<'a, W, N: Naming<Global>> {
    pub scribe: Scribe,
    pub sink: &'a mut W,
    pub of: PhantomData<N>,
    pub ghost here: { N.ring ≡ Some (name_of scribe.steps.end) },
    pub ghost fresh: { received scribe.steps ≡ [] },
}

/// A scribe that has followed a run, where it writes, and whether it could.
#[derive(Drop)]
pub(crate) struct Written<'a, W, N: Naming<Global>> {
    pub scribe: Scribe,
    pub sink: &'a mut W,
    pub written: Result<(), PrintFault>,
    pub of: PhantomData<N>,
    pub ghost here: { N.ring ≡ Some (name_of scribe.steps.end) },
}

/// Where a history is written, and what of it waits, if it could be written.
#[derive(Drop)]
pub(crate) struct Begun<'a, W> {
    pub sink: &'a mut W,
    pub waiting: Result<Waiting, PrintFault>,
}

impl<'a, W: Sink, N: Naming<Global>> Following for Writing<'a, W, N> {
    type Followed = Written<'a, W, N>;

    ghost follows = { λ w r. (r.sink.ghost_name ≡ w.sink.ghost_name)
        × HasFollowed w.scribe r.scribe (W.state w.sink.now) (W.state r.sink.now) r.written };

    #[tactic(auto, using(crate::proofs::WritingLemmas::followed_of, crate::proofs::WritingLemmas::stays_here))]
    fn follow<R: Wait>(self, rt: &R, room: &Room) -> Written<'a, W, N> {
        let Writing {
            mut scribe,
            sink,
            of,
        } = self;
        let written = scribe.follow(rt, room, sink);
        Written {
            scribe,
            sink,
            written,
            of,
        }
    }
}

/// Writes what is left of the text of a run that stopped, where its history stands and has a step. That it can't be written changes no
/// fault; an `Err` is that of the text while the run went on.
#[tactic(auto, using(crate::proofs::WritingLemmas::still_stopped))]
fn write_stopped<A: Allocator, W: Sink>(
    history: &Option<Unkept<Step<A>>>,
    waiting: Result<Waiting<A>, PrintFault>,
    sink: &mut W,
) -> Result<(), PrintFault>
    ensures written { HasStoppedWriting history.now (W.state sink.old) (W.state sink.new) waiting }
    ensures fault { MatchResult waiting (λ _. result ≡ Ok tt) (λ why. result ≡ Err why) }
{
    match waiting {
        Ok(waiting) => {
            if waiting.is_begun && history.is_some() {
                let _ = finish_history(Ok(waiting), sink);
            }
            Ok(())
        }
        Err(why) => Err(why),
    }
}

/// Writes what is left of the text of a run that answered so: to its end, or what stands of one that stopped. An `Err` is why it
/// isn't whole.
pub(crate) fn finish_run<T, A: Allocator, W: Sink>(
    answer: &Result<T, Halted<A>>,
    waiting: Result<Waiting<A>, PrintFault>,
    sink: &mut W,
) -> Result<(), PrintFault>
    ensures { HasFinishedRun answer.now (W.state sink.old) (W.state sink.new) waiting result }
{
    match answer {
        Ok(_) => finish_history(waiting, sink),
        Err(halted) => write_stopped(&halted.history, waiting, sink),
    }
}

impl<'a, W: Sink, N: Naming<Global>> Exchange<Global, Journal<N>, Whole> for Written<'a, W, N> {
    type Rest = Begun<'a, W>;

    ghost leaves = { λ w steps rest. (rest.sink.ghost_name ≡ w.sink.ghost_name)
        × HasEnded w.scribe steps (W.state w.sink.now) (W.state rest.sink.now) w.written rest.waiting };

    #[tactic(auto, using(crate::proofs::WritingLemmas::ends_meet))]
    fn exchange(self, keeper: Journal<N>) -> (Option<Whole>, Begun<'a, W>) {
        let Written {
            scribe,
            sink,
            written,
            ..
        } = self;
        let mut producer = keeper.into_steps();
        let waiting = scribe.end(written, &mut producer, sink);
        drop(producer);
        (None, Begun { sink, waiting })
    }
}

impl<'a, W: Sink + Send, N: Naming<Global> + Configuring + Send> Course<
    TableRouter<Global, Journal<N>, N>,
    Global,
> for Writing<'a, W, N> {
    const IS_BESIDE: bool = true;

    type Rest = Begun<'a, W>;

    ghost leaves = { λ w steps rest. ((rest.sink.ghost_name ≡ w.sink.ghost_name)
        × HasEnded w.scribe steps (W.state w.sink.now) (W.state rest.sink.now) w.written rest.waiting)
        × ((s : Config) → N.config ≡ Some s → IsLegal s (reverse steps)) };

    fn room(&self) -> Room {
        Room::of(MOST_WAITING)
    }

    #[tactic(auto, using(crate::proofs::WritingLemmas::legal_by_name))]
    fn end(ran: Written<'a, W, N>, core: TableRouter<Global, Journal<N>, N>) -> Begun<'a, W> {
        core.is_legal();
        let (_, rest) = core.exchange::<Whole, Written<'a, W, N>>(ran);
        rest
    }

    fn give_up(self) -> Begun<'a, W> {
        let Writing { scribe, sink, .. } = self;
        let waiting = Ok(scribe.give_up());
        Begun { sink, waiting }
    }
}
