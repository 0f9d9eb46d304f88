//! Laws of legal histories: of tickets, of connections, of packets, of whole runs, and of whose steps are whose.
#![tactic(auto)]

mod connections;
mod owners;
mod packets;
mod runs;
mod tickets;

pub use connections::{
    closed_stays_closed, connections_count, nothing_after_close, packets_go_to_live,
};
pub use owners::{fitting_are_mine, fitting_is_mine, links_agree, may_read, may_write};
pub use packets::{drained_took_all, queued_is_taken_and_waiting};
pub use runs::{all_routed, equal_counts_route_all};
pub use tickets::{admitted_once, routed_once, routes_are_replied, tickets_count};
