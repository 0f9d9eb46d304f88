//! Who calls the router.

ghost use Rattle.std.specs.Prelude.{◌≡◌, length};
ghost use Rattle.gn_actors.specs.ActorState.{new_actor};
ghost use Rattle.gn_actors.specs.Annals.{Fits};
ghost use Rattle.gn_actors.specs.Tallies.{last_place, tally_of};

use crate::growing::{Beginning, Named};
use crate::tally::Tally;
use gn_rules::{Receipt, Step};
use gn_trail::Trail;
use std::alloc::{Allocator, Global};
use std::marker::Model;
use std::sync::ledger::{Ledger, Share};

/// One of the callers of a router. Contracts see the receipts of its calls, of which it keeps none: they stand in the beginning
/// of the history that it has seen, and its share of the ledger is their number. It knows where the last of them stands, and what
/// they count.
/// `Numbering` says which number it has.
pub struct Actor<L: Ledger + Named, A: Allocator = Global> {
    pub(crate) number: u32,
    pub(crate) last: u64,
    pub(crate) tally: Tally,
    pub(crate) receipts: Trail<Receipt<A>>,
    pub(crate) seen: Beginning<Step<A>, L>,
    pub(crate) share: Share<L>,
}

impl<L: Ledger + Named, A: Allocator> Drop for Actor<L, A> {
    fn drop(self) {
        let Actor {
            number: _,
            last: _,
            tally: _,
            receipts: _,
            seen: _,
            share: _,
        } = self;
    }
}

impl<L: Ledger + Named, A: Allocator> Model for Actor<L, A> {
    ghost use Rattle.std.specs.Prelude.{◌≡◌, length};
    ghost use Rattle.gn_actors.specs.ActorState.{ActorState};
    ghost use Rattle.gn_actors.specs.Tallies.{last_place, tally_of};
    ghost use Rattle.gn_laws.specs.Owners.{AreFitting};

    ghost Value = { ActorState A };

    ghost view = { λ a. record { number = a.number; receipts = a.receipts.items } };

    ghost invariant = { λ a. (a.share.parts ≡ 1) × (a.share.amount ≡ length a.receipts.items)
        × AreFitting a.seen.items a.number a.receipts.items
        × (a.last ≡ last_place a.receipts.items) × (a.tally ≡ tally_of a.receipts.items) };
}

impl<L: Ledger + Named, A: Allocator> Actor<L, A> {
    /// An actor that has no receipts, and has seen this beginning of the history.
    pub fn new(number: u32, seen: Beginning<Step<A>, L>, share: Share<L>) -> Self
        requires { (share.parts ≡ 1) × (share.amount ≡ 0) }
        ensures { result ≡ new_actor number }
    {
        Actor {
            number,
            last: 0,
            tally: Tally::new(),
            receipts: Trail::new(),
            seen,
            share,
        }
    }

    /// Its number.
    pub fn number(&self) -> u32
        ensures { result ≡ self.now.number }
    {
        self.number
    }

    /// One more than the index of its last receipt; 0 where it has none.
    pub fn last(&self) -> u64
        ensures { result ≡ last_place self.now.receipts }
    {
        self.last
    }

    /// What its receipts count, and the connection that they tell of.
    pub fn tally(&self) -> Tally
        ensures { result ≡ tally_of self.now.receipts }
    {
        self.tally
    }

    /// Its receipts, what it has seen, in which they stand, and its share of the ledger: one part, with their number.
    pub(crate) fn go_home(self) -> (Trail<Receipt<A>>, Beginning<Step<A>, L>, Share<L>)
        ensures receipts { result.0.items ≡ self.receipts }
        ensures fits { Fits result.1.items self }
        ensures share { (result.2.parts ≡ 1) × (result.2.amount ≡ length self.receipts) }
    {
        let Actor {
            number: _,
            last: _,
            tally: _,
            receipts,
            seen,
            share,
        } = self;
        (receipts, seen, share)
    }
}
