//! The store of a router that answers out of tables, and that router.
#![tactic(auto)]

mod configuring;
mod exchange;
mod follow;
mod over;
mod store;
mod table_router;
mod tables;

pub use configuring::Configuring;
pub use exchange::Exchange;
pub use store::TableStore;
pub use table_router::TableRouter;
