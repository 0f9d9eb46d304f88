//! What is known of each link that came.

ghost use Rattle.std.specs.Prelude.{◌≡◌, ◌++◌, ◌∷◌, []};
ghost use Rattle.gn_start.specs.Table.{ends_of, with_end};
ghost use Rattle.gn_start.specs.declared.states.LinkState.TheVariants.{At, Lost};

use crate::incoming::NewLink;
use gn_report::LinkEnd;
use gn_trail::{Lists, Trail};
use std::alloc::{Allocator, Global};
use std::snapshot::Snapshot;

/// What is known of a link that came so: that it is at this slot, how it ended, or that no threads could be made for it. No such
/// value is made: they stand in lists that only proofs read.
#[derive(Drop)]
pub(crate) enum LinkState<Rd, W, A: Allocator = Global> {
    At(u32, NewLink<Rd, W>),
    Ended(NewLink<Rd, W>, LinkEnd<Rd, W, A>),
    Lost(NewLink<Rd, W>),
}

/// What is known of all that came.
pub(crate) type States<Rd, W, A> = Trail<LinkState<Rd, W, A>>;

/// Those, and one that comes.
#[derive(Drop)]
struct Beside<Rd, W, A: Allocator> {
    states: Snapshot<States<Rd, W, A>>,
    slot: u32,
    came: Snapshot<NewLink<Rd, W>>,
}

/// Its threads run.
struct OneAt;

impl<Rd, W, A: Allocator> Lists<Beside<Rd, W, A>, LinkState<Rd, W, A>> for OneAt {
    ghost use Rattle.std.specs.Prelude.{◌++◌, ◌∷◌, []};
    ghost use Rattle.gn_start.specs.declared.states.LinkState.TheVariants.{At};

    ghost list = { λ b. b.states.value.items ++ At b.slot b.came.value ∷ [] };
}

/// It has no threads.
struct OneLost;

impl<Rd, W, A: Allocator> Lists<Beside<Rd, W, A>, LinkState<Rd, W, A>> for OneLost {
    ghost use Rattle.std.specs.Prelude.{◌++◌, ◌∷◌, []};
    ghost use Rattle.gn_start.specs.declared.states.LinkState.TheVariants.{Lost};

    ghost list = { λ b. b.states.value.items ++ Lost b.came.value ∷ [] };
}

/// Those, and how one of them ends.
#[derive(Drop)]
struct Ending<Rd, W, A: Allocator> {
    states: Snapshot<States<Rd, W, A>>,
    link: u32,
    end: Snapshot<LinkEnd<Rd, W, A>>,
}

/// It has ended.
struct OneEnded;

impl<Rd, W, A: Allocator> Lists<Ending<Rd, W, A>, LinkState<Rd, W, A>> for OneEnded {
    ghost use Rattle.gn_start.specs.Table.{with_end};

    ghost list = { λ b. with_end b.states.value.items b.link b.end.value };
}

/// How those ended that have.
struct AllEnds;

impl<Rd, W, A: Allocator> Lists<States<Rd, W, A>, LinkEnd<Rd, W, A>> for AllEnds {
    ghost use Rattle.gn_start.specs.Table.{ends_of};

    ghost list = { λ states. ends_of states.items };
}

/// A link has come, and its threads run, at this slot.
pub(crate) fn at<Rd, W, A: Allocator>(
    states: &States<Rd, W, A>,
    slot: u32,
    came: Snapshot<NewLink<Rd, W>>,
) -> States<Rd, W, A>
    ensures { result.items ≡ states.now.items ++ At slot came.value ∷ [] }
{
    let beside = Beside {
        states: Snapshot::of(states),
        slot,
        came,
    };
    Trail::of::<Beside<Rd, W, A>, OneAt>(&beside)
}

/// A link has come that has no threads.
pub(crate) fn lost<Rd, W, A: Allocator>(
    states: &States<Rd, W, A>,
    came: Snapshot<NewLink<Rd, W>>,
) -> States<Rd, W, A>
    ensures { result.items ≡ states.now.items ++ Lost came.value ∷ [] }
{
    let beside = Beside {
        states: Snapshot::of(states),
        slot: 0,
        came,
    };
    Trail::of::<Beside<Rd, W, A>, OneLost>(&beside)
}

/// A link has ended so.
pub(crate) fn ended<Rd, W, A: Allocator>(
    states: &States<Rd, W, A>,
    link: u32,
    end: &LinkEnd<Rd, W, A>,
) -> States<Rd, W, A>
    ensures { result.items ≡ with_end states.now.items link end.now }
{
    let ending = Ending {
        states: Snapshot::of(states),
        link,
        end: Snapshot::of(end),
    };
    Trail::of::<Ending<Rd, W, A>, OneEnded>(&ending)
}

/// How those ended that have.
pub(crate) fn ends<Rd, W, A: Allocator>(states: &States<Rd, W, A>) -> Trail<LinkEnd<Rd, W, A>>
    ensures { result.items ≡ ends_of states.now.items }
{
    Trail::of::<States<Rd, W, A>, AllEnds>(states)
}
