//! How the threads of a run begin and end.

ghost use Rattle.std.specs.Prelude.{◌≡◌, ◌+◌, ◌<◌, ◌≤◌, ◌^◌, [], ℕ, length, slice_index_or, true, is_some, IfSome};
ghost use Rattle.gn_actors.specs.Who.{number_of};
ghost use Rattle.gn_actors.specs.declared.who.Who.TheVariants as who;
ghost use Rattle.gn_start.specs.Crews.{AreWorked};
ghost use Rattle.gn_start.specs.Faults.{IsArrivingFault, IsFaultOf};
ghost use Rattle.gn_start.specs.Numbers.{links_of, numbers_of, workers_of};
ghost use Rattle.gn_start.specs.Over.{HaveCome, IsOver, views_of};
ghost use Rattle.gn_start.specs.Table.{AreAll, AreFree, EndsBy, all_came};
ghost use Rattle.gn_start.specs.declared.fault.RunFault.TheVariants.{NoMemory};

use crate::crew::Worked;
use crate::incoming::Incoming;
use crate::limits::Limited;
use crate::over::{Over, Stagework};
use crate::slots::Slots;
use crate::states::ends;
use crate::table::LinkTable;
use crate::trouble::Trouble;
use gn_actors::{Named, Numbering, Registry};
use gn_links::{LinkReader, LinkWriter};
use gn_report::{Keeping, Looks};
use gn_stage::{Outlet, Reception, Site};
use gn_trail::Trail;
use std::alloc::{Allocator, Global};
use std::sync::ledger::Ledger;

/// A run that begins: the registry of its actors, of whom nobody is out, the ends of its stage, how its actors are numbered, and how many
/// links may be there at once.
#[derive(Drop)]
pub struct Opened<B: Site + Ledger + Named, A: Allocator = Global> {
    pub registry: Registry<B, A>,
    pub reception: Reception<B, A>,
    pub outlets: Vec<Outlet<B, A>, A>,
    pub numbering: Numbering,
    pub slots: u32,
}

/// How many numbers a run has before its first link comes.
pub(crate) fn first_numbers(numbering: Numbering) -> u32
    requires { numbers_of numbering 0 < 2 ^ 32 }
    ensures { result ≡ numbers_of numbering 0 }
{
    match numbering {
        Numbering::Known { links, workers } => links + links + workers + 1,
        Numbering::Open { workers } => 1 + workers,
    }
}

/// So many free slots of a run of which something is lost, or not. Where there is no memory for them, something is.
pub(crate) fn slots_for<
    Rd: LinkReader,
    W: LinkWriter,
    B: Site + Ledger + Limited + Named,
    A: Allocator + Copy,
>(alloc: A, many: u32, is_lost: bool) -> (Slots<Rd, W, B, A>, Trouble)
    ensures free { AreFree result.0 }
    ensures lost { (is_lost ≡ true → result.1.is_lost ≡ true)
        × (result.1.is_lost ≡ true → is_some result.1.fault ≡ true) }
    ensures fault { IfSome result.1.fault (λ fault. fault ≡ NoMemory) }
{
    if is_lost {
        return (Slots::none(alloc), Trouble::none().lost());
    }
    match Slots::new(alloc, many) {
        Ok(slots) => (slots, Trouble::none()),
        Err(_) => (Slots::none(alloc), Trouble::none().lost()),
    }
}

impl<
    V: Incoming,
    K: Keeping<V::Reader, V::Writer, A>,
    B: Site + Ledger + Limited + Named,
    A: Allocator + Copy,
> LinkTable<V, K, B, A> {
    /// The table of a run that begins, to which no link has come.
    pub(crate) fn new(
        opened: (Numbering, Registry<B, A>, Reception<B, A>),
        slots: Slots<V::Reader, V::Writer, B, A>,
        trouble: Trouble,
        keeper: K,
    ) -> Self
        requires registry { (length opened.1.lists ≡ numbers_of opened.0 0)
            × ((n : ℕ) → slice_index_or opened.1.lists n [] ≡ []) × (opened.1.out ≤ workers_of opened.0 + 1) }
        requires reception { (opened.2.made.intakes ≡ 0) × (opened.2.is_open ≡ true) }
        requires free { AreFree slots }
        requires lost { trouble.is_lost ≡ true → is_some trouble.fault ≡ true }
        requires fault { IfSome trouble.fault (λ fault. fault ≡ NoMemory) }
        requires keeper { K.keeps keeper [] }
        ensures { (result.numbering ≡ opened.0) × (result.states ≡ []) × (result.is_open ≡ true)
            × (result.is_lost ≡ trouble.is_lost) }
    {
        let (numbering, registry, reception) = opened;
        LinkTable {
            numbering,
            slots,
            came: 0,
            states: Trail::new(),
            registry,
            reception,
            looks: Looks::none::<V::Reader, V::Writer, A>(),
            keeper,
            trouble,
        }
    }

    /// What a run leaves of whose links all threads are joined, and whose workers left so much.
    pub(crate) fn finish(
        self,
        worked: Worked<B, A>,
    ) -> (Over<V::Reader, V::Writer, K, B, A>, Stagework<B, A>)
        requires free { AreFree self.live }
        requires crew { AreWorked (number_of self.numbering (who.Worker 0)) (workers_of self.numbering) worked }
        requires fault { IfSome worked.fault (λ fault. IsFaultOf
            (links_of self.numbering (length self.states)) (workers_of self.numbering) fault) }
        ensures over { IsOver (views_of V.Reader.state V.Writer.state V.Reader.gives V.Reader.made_of V.Writer.made_of)
            K.keeps B.turns B.batch self.numbering (workers_of self.numbering) result.0 }
        ensures came { (first : V) → AreAll V.Reader.made_of V.foreknown V.is_known self.is_faulty
            self.numbering (V.may_come first) (V.may_end first) (all_came self.states)
            → (V.is_known ≡ true → EndsBy self.numbering (V.may_end first))
            → HaveCome (views_of V.Reader.state V.Writer.state V.Reader.gives V.Reader.made_of V.Writer.made_of)
            V.foreknown V.is_known (V.may_come first) (V.may_end first) result.0 }
        ensures fault { IfSome result.0.fault (λ fault. IsArrivingFault V.has_peers
            (links_of self.numbering result.0.came) (workers_of self.numbering) fault) }
    {
        let LinkTable {
            came,
            states,
            registry,
            reception,
            looks,
            keeper,
            trouble,
            ..
        } = self;
        let Worked {
            actors,
            outlets,
            is_lost,
            fault,
        } = worked;
        let Trouble { is_lost, fault } = trouble.with(fault).or_lost(is_lost);
        let over = Over {
            came,
            keeper,
            links: ends(&states),
            registry,
            workers: actors,
            looks,
            fault,
            is_lost,
        };
        (over, Stagework { reception, outlets })
    }
}
