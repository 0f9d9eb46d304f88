//! A table router whose keeper is exchanged for another one with the same steps.

ghost use Rattle.std.specs.Prelude.{◌≡◌, List, IfSome};
ghost use Rattle.gn_rules.specs.declared.receipt.Step.{Step};

use crate::configuring::Configuring;
use crate::store::TableStore;
use crate::table_router::TableRouter;
use gn_router::Router;
use gn_tables::Keeper;
use std::alloc::Allocator;
use std::marker::PhantomData;

/// What makes a keeper with the same steps out of another, where it can, and what is left of it.
pub trait Exchange<A: Allocator, K: Keeper<A>, N: Keeper<A>> {
    /// What is left of it.
    type Rest;

    /// What may be left, once a keeper with these steps was exchanged.
    ghost leaves: { Self → List (Step A) → Self.Rest → Type 0 };

    /// The other keeper; `None`, where memory ran out.
    fn exchange(self, keeper: K) -> (Option<N>, Self::Rest)
        ensures kept { IfSome result.0 (λ n. N.kept n ≡ K.kept keeper) }
        ensures leaves { leaves self (K.kept keeper) result.1 };
}

impl<A: Allocator + Copy, K: Keeper<A> + Drop, C: Configuring> TableRouter<A, K, C> {
    /// The same router with another keeper, and what is left of what made it; `None`, where that had no memory.
    pub fn exchange<N: Keeper<A> + Drop, X: Exchange<A, K, N>>(
        self,
        by: X,
    ) -> (Option<TableRouter<A, N>>, X::Rest)
        ensures settings { IfSome result.0 (λ r. r.router.store.settings ≡ self.router.store.settings) }
        ensures steps { IfSome result.0 (λ r. r.router.store.steps ≡ self.router.store.steps) }
        ensures leaves { X.leaves by self.router.store.steps result.1 }
    {
        let Router { alloc, store } = self.router;
        let TableStore {
            config,
            history,
            tables,
        } = store;
        let (history, rest) = by.exchange(history);
        let router = match history {
            Some(history) => {
                let store = TableStore {
                    config,
                    history,
                    tables,
                };
                Some(TableRouter {
                    router: Router { alloc, store },
                    of: PhantomData,
                })
            }
            None => {
                drop(tables);
                None
            }
        };
        (router, rest)
    }
}
