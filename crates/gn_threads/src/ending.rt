//! A run from its first link until the house is done.

ghost use Rattle.std.specs.Prelude.{◌≡◌, []};
ghost use Rattle.gn_actors.specs.Who.{number_of};
ghost use Rattle.gn_actors.specs.declared.who.Who.TheVariants as who;
ghost use Rattle.gn_start.specs.House.{IsHouse};
ghost use Rattle.gn_start.specs.Numbers.{workers_of};
ghost use Rattle.gn_start.specs.Over.{HaveCome, IsOver, views_of};
ghost use Rattle.gn_threads.specs.Left.{IsFaultAt, IsOpenedFor};

use crate::settling::{Left, wind_up};
use gn_actors::Named;
use gn_links::Gate;
use gn_report::Keeping;
use gn_rules::RouterCore;
use gn_stage::Site;
use gn_start::{Floor, Incoming, Limited, Opened, run_links};
use std::alloc::{Allocator, Global};
use std::marker::Model;
use std::sync::Wait;
use std::sync::ledger::Ledger;
use std::thread::Threads;

/// A run that begins: what its threads start from, where its links come from, and who keeps what they do, who has nothing yet. Contracts see
/// the first two.
#[derive(Drop)]
pub(crate) struct Begun<
    V: Incoming,
    K: Keeping<V::Reader, V::Writer, A>,
    B: Site + Ledger + Named,
    A: Allocator = Global,
> {
    opened: Opened<B, A>,
    incoming: V,
    keeper: K,
}

impl<V: Incoming, K: Keeping<V::Reader, V::Writer, A>, B: Site + Ledger + Named, A: Allocator> Model
    for Begun<V, K, B, A> {
    ghost use Rattle.std.specs.Prelude.{[]};
    ghost use Rattle.gn_threads.specs.Left.{BegunState, IsOpenedFor};

    ghost Value = { BegunState V B A };

    ghost view = { λ b. record { opened = b.opened; incoming = b.incoming } };

    ghost invariant = { λ b. IsOpenedFor V.is_known (V.may_end b.incoming) b.opened × K.keeps b.keeper [] };
}

impl<
    V: Incoming,
    K: Keeping<V::Reader, V::Writer, A>,
    B: Site + Ledger + Named,
    A: Allocator,
> Begun<V, K, B, A> {
    /// Of these links, with who has kept nothing.
    pub(crate) fn new(opened: Opened<B, A>, incoming: V, keeper: K) -> Self
        requires opened { IsOpenedFor V.is_known (V.may_end incoming) opened }
        requires keeper { K.keeps keeper [] }
        ensures { (result.opened ≡ opened) × (result.incoming ≡ incoming) }
    {
        Begun {
            opened,
            incoming,
            keeper,
        }
    }
}

/// Runs all links that come to their ends, and the house, which routes what they left.
pub(crate) fn run_to_end<
    V: Incoming,
    K: Keeping<V::Reader, V::Writer, A>,
    B: Site + Ledger + Limited + Named + Send + Sync,
    C: RouterCore<A> + Drop + Send,
    G: Gate + Sync,
    A: Allocator + Copy + Send + Sync,
    R: Threads + Wait + Sync,
>(floor: &Floor<'_, C, B, G, A, R>, begun: Begun<V, K, B, A>) -> Left<V::Reader, V::Writer, K, B, A>
where
    V::Reader: Send,
    V::Writer: Send,
    ensures over { IsOver (views_of V.Reader.state V.Writer.state V.Reader.gives V.Reader.made_of V.Writer.made_of)
        K.keeps B.turns B.batch begun.opened.numbering (workers_of begun.opened.numbering) result.over }
    ensures came { HaveCome (views_of V.Reader.state V.Writer.state V.Reader.gives V.Reader.made_of V.Writer.made_of)
        V.foreknown V.is_known (V.may_come begun.incoming) (V.may_end begun.incoming) result.over }
    ensures house { IsHouse (V.recalls begun.incoming) (V.originates begun.incoming)
        (number_of begun.opened.numbering who.House) result.house }
    ensures fault { IsFaultAt V.has_peers begun.opened.numbering result.over result.fault }
{
    let Begun {
        opened,
        incoming,
        keeper,
    } = begun;
    let (over, stagework, house) = run_links(floor, opened, incoming, keeper);
    wind_up(floor.rt, floor.alloc, floor.service, over, stagework, house)
}
