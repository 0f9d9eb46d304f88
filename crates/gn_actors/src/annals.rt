//! The steps of a run: how many by the ledger, and which, as only proofs read.

ghost use Rattle.std.specs.Prelude.{◌≡◌, ◌+◌, ℕ, [], length};
ghost use mathlib.Core.List.{IsPrefix};
ghost use Rattle.gn_actors.specs.ActorState.{with_receipt};
ghost use Rattle.gn_rules.specs.declared.reply.Reply.{Reply};
ghost use Rattle.gn_actors.specs.Annals.{IsRouted, IsStepped, last_receipt};

use crate::actor::Actor;
use crate::growing::{Beginning, Growing, Named, Unnamed};
use gn_rules::{Receipt, RouterCore, Step};
use gn_trail::{Lists, Tells};
use std::alloc::{Allocator, Global};
use std::marker::Model;
use std::sync::ledger::{Blank, Book, Ledger, Share};

/// The list of a router are its steps.
struct StepsOf;

impl<C: RouterCore<A>, A: Allocator + Copy> Lists<C, Step<A>> for StepsOf {
    ghost list = { λ core. C.steps core };
}

/// A router tells the last of its steps, as its actor's receipt.
struct LastStep;

impl<C: RouterCore<A>, A: Allocator + Copy> Tells<C, Receipt<A>> for LastStep {
    ghost told = { λ core. last_receipt (C.steps core) };
}

/// What the annals of a run are opened from: a ledger and a list of steps, which no type stands for yet.
#[derive(Drop)]
pub struct Unopened<A: Allocator = Global> {
    pub blank: Blank,
    pub steps: Unnamed<Step<A>>,
}

impl<A: Allocator> Unopened<A> {
    /// Of a run whose ledger has so many parts.
    pub fn new(parts: u64) -> Self
        ensures { result.blank.parts ≡ parts }
    {
        Unopened {
            blank: Blank::new(parts),
            steps: Unnamed::new(),
        }
    }
}

/// All steps of a run, in order. It takes no memory.
pub struct Annals<L: Ledger + Named, A: Allocator = Global> {
    book: Book<L>,
    pub(crate) steps: Growing<Step<A>, L>,
    seen: Beginning<Step<A>, L>,
}

impl<L: Ledger + Named, A: Allocator> Drop for Annals<L, A> {
    fn drop(self) {
        let Annals {
            book: _,
            steps: _,
            seen: _,
        } = self;
    }
}

impl<L: Ledger + Named, A: Allocator> Model for Annals<L, A> {
    ghost use Rattle.std.specs.Prelude.{◌≡◌, List, length};
    ghost use Rattle.gn_rules.specs.declared.receipt.Step.{Step};

    ghost Value = { List (Step A) };

    ghost view = { λ a. a.steps.items };

    ghost invariant = { λ a. a.book.total ≡ length a.steps.items };
}

impl<L: Ledger + Named, A: Allocator + Copy> Annals<L, A> {
    /// Of a run that begins, with all parts of the ledger and the beginning of the history, which is empty.
    pub fn open(unopened: Unopened<A>) -> (Self, Share<L>, Beginning<Step<A>, L>)
        requires name { (unopened.blank.name ≡ L.name) × (unopened.steps.name ≡ L.growing) }
        requires parts { unopened.blank.parts ≡ L.parts }
        ensures annals { result.0 ≡ [] }
        ensures share { (result.1.parts ≡ L.parts) × (result.1.amount ≡ 0) }
        ensures seen { result.2.items ≡ [] }
    {
        let Unopened { blank, steps } = unopened;
        let (book, share) = blank.open::<L>();
        let (steps, mut seen) = steps.named::<L>();
        let first = seen.again();
        (Annals { book, steps, seen }, share, first)
    }

    /// An actor made the last of the router's steps, of which this is the receipt.
    pub fn record<C: RouterCore<A>>(&mut self, me: &mut Actor<L, A>, core: &C, receipt: &Receipt<A>)
        requires { IsStepped self.old (C.steps core.now) me.old receipt.now }
        ensures steps { self.new ≡ C.steps core.now }
        ensures actor { me.new ≡ with_receipt me.old receipt.now }
    {
        let Annals { book, steps, .. } = self;
        let Actor {
            last,
            tally,
            receipts,
            seen,
            share,
            ..
        } = me;
        *receipts = receipts.and(receipt);
        steps.record::<C, StepsOf>(seen, core);
        book.add(share, 1);
        *last = place_after(receipt);
        *tally = tally.with(receipt);
    }

    /// An actor made the last of the router's steps, a Route, of which nobody has the receipt.
    pub fn record_route<C: RouterCore<A>>(&mut self, me: &mut Actor<L, A>, core: &C)
        requires { (ticket : ℕ) × (reply : Reply A) × IsRouted self.old (C.steps core.now) me.old ticket reply }
        ensures steps { self.new ≡ C.steps core.now }
        ensures actor { me.new ≡ with_receipt me.old (last_receipt (C.steps core.now)) }
    {
        let Annals { book, steps, .. } = self;
        let Actor {
            last,
            receipts,
            seen,
            share,
            ..
        } = me;
        *receipts = receipts.and_of::<C, LastStep>(core);
        steps.record::<C, StepsOf>(seen, core);
        book.add(share, 1);
        *last = u64::from(core.step_count());
    }

    /// The steps so far, for who wants to know of them later.
    pub fn so_far<C: RouterCore<A>>(&mut self, core: &C) -> Beginning<Step<A>, L>
        requires { C.steps core.now ≡ self.old }
        ensures same { self.new ≡ self.old }
        ensures seen { result.items ≡ self.old }
    {
        let Annals { steps, seen, .. } = self;
        steps.record::<C, StepsOf>(seen, core);
        seen.again()
    }

    /// What was seen before is a beginning of the steps.
    pub fn recall<C: RouterCore<A>>(&mut self, seen: Beginning<Step<A>, L>, core: &C)
        requires { C.steps core.now ≡ self.old }
        ensures same { self.new ≡ self.old }
        ensures began { IsPrefix seen.items self.new }
    {
        let mut seen = seen;
        self.look(&mut seen, core);
    }

    /// What was seen is a beginning of the steps, and all of them are seen.
    pub(crate) fn look<C: RouterCore<A>>(&mut self, seen: &mut Beginning<Step<A>, L>, core: &C)
        requires { C.steps core.now ≡ self.old }
        ensures same { self.new ≡ self.old }
        ensures began { IsPrefix seen.old.items self.new }
        ensures seen { seen.new.items ≡ self.new }
    {
        self.steps.record::<C, StepsOf>(seen, core);
    }

    /// All shares together are as many as the steps.
    pub(crate) fn audit(&mut self, all: &mut Share<L>)
        requires { all.old.parts ≡ L.parts }
        ensures total { all.new.amount ≡ length self.new }
        ensures same { (self.new ≡ self.old) × (all.new.amount ≡ all.old.amount) × (all.new.parts ≡ all.old.parts) }
    {
        self.book.audit(all);
    }
}

/// One more than the index of a receipt.
fn place_after<A: Allocator>(receipt: &Receipt<A>) -> u64
    ensures { result ≡ receipt.now.index + 1 }
{
    u64::from(receipt.index) + 1
}
