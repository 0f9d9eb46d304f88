//! The account of a run whose links came one after another, of which nobody knew how many.

ghost use Rattle.std.specs.Prelude.{◌≡◌, ◌+◌, ◌<◌, ◌^◌, length};
ghost use Rattle.gn_threads.specs.OpenAccounts.{accounts_of};

use gn_report::{LinkAccount, LinkEnd, Unkept};
use gn_rules::{Receipt, Stats, Step};
use gn_trail::{Lists, Trail};
use std::alloc::{Allocator, Global};

/// What such a run did, of which nobody keeps anything but counters. The house has number 0, worker j has 1 + j, and the reader and the
/// writer of link k have the next two numbers after those of the workers and of the links before it.
#[derive(Drop)]
pub struct OpenAccount<Rd, W, A: Allocator = Global> {
    /// All steps, in order.
    pub history: Unkept<Step<A>>,
    /// What each link's bodies did, in the order of the links.
    pub links: Unkept<LinkAccount<Rd, W, A>>,
    /// The receipts of each worker's calls.
    pub workers: Vec<Unkept<Receipt<A>>, A>,
    /// The receipts of the house's calls.
    pub house: Unkept<Receipt<A>>,
    /// The counters at the end.
    pub stats: Stats,
    /// Each actor has a number.
    pub ghost numbered: { length links.items + length links.items + length workers.items + 1 < 2 ^ 32 },
}

/// The accounts of links that have one.
struct AccountsIn;

impl<Rd, W, A: Allocator> Lists<Trail<LinkEnd<Rd, W, A>>, LinkAccount<Rd, W, A>> for AccountsIn {
    ghost use Rattle.gn_threads.specs.OpenAccounts.{accounts_of};

    ghost list = { λ ends. accounts_of ends.items };
}

/// The accounts of links that have one, in order.
pub(crate) fn accounts_in<Rd, W, A: Allocator>(
    ends: &Trail<LinkEnd<Rd, W, A>>,
) -> Trail<LinkAccount<Rd, W, A>>
    ensures { result.items ≡ accounts_of ends.now.items }
{
    Trail::of::<Trail<LinkEnd<Rd, W, A>>, AccountsIn>(ends)
}
