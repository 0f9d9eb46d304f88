//! The table router over a keeper of the caller's own.

ghost use Rattle.std.specs.Prelude.{◌≡◌, [], IfOk, Some};

use crate::configuring::Configuring;
use crate::store::TableStore;
use crate::table_router::TableRouter;
use gn_router::Router;
use gn_rules::Config;
use gn_tables::Keeper;
use std::alloc::{AllocError, Allocator};
use std::marker::PhantomData;

impl<A: Allocator + Copy, K: Keeper<A> + Drop> TableRouter<A, K> {
    /// The router of no steps, which gives its steps to one that has got none yet. An `Err` is out of memory.
    pub fn over(alloc: A, config: &Config, keeper: K) -> Result<Self, AllocError>
        requires { K.kept keeper ≡ [] }
        ensures settings { IfOk result (λ r. r.router.store.settings ≡ config.now) }
        ensures empty { IfOk result (λ r. r.router.store.steps ≡ []) }
    {
        let store = TableStore::over(alloc, config, keeper)?;
        Ok(TableRouter {
            router: Router { alloc, store },
            of: PhantomData,
        })
    }

    /// The same router, whose type says that it has the configuration that `N` names.
    pub fn named<N: Configuring>(self) -> TableRouter<A, K, N>
        requires { N.config ≡ Some self.router.store.settings }
        ensures settings { result.router.store.settings ≡ self.router.store.settings }
        ensures steps { result.router.store.steps ≡ self.router.store.steps }
    {
        TableRouter {
            router: self.router,
            of: PhantomData,
        }
    }
}
