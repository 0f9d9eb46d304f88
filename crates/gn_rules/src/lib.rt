//! The rules of a Gnutella v0.4 router: its events and replies, what each event is answered, and what every router promises.
#![tactic(auto)]

mod config;
mod event;
mod excerpt;
mod fresh;
mod historian;
mod laws;
mod legality;
mod limits;
mod packets;
mod receipt;
mod refusal;
mod reply;
mod router_core;
mod routing;
mod runs;
mod sends;
mod statistics;

pub use config::{BadConfig, Config, Field, Own, is_same_config};
pub use event::{ConnId, Event, Ticket, is_same_event};
pub use excerpt::Excerpt;
pub use fresh::FreshRouter;
pub use historian::Historian;
pub use laws::{
    answers_fit, checked_answers_fit, counters_add_up, counters_count, live_connections_rise,
    output_is_untaken, runs_agree, runs_agree_so_far, runs_stay_legal, servent_route_is_last,
};
pub use legality::Legality;
pub use limits::{MOST_LINKS, MOST_WORKERS, Numbers};
pub use packets::{may_originate, own_pong};
pub use receipt::{Receipt, Step, is_step_of};
pub use refusal::Refusal;
pub use reply::{DropReason, Reply, is_same_reply};
pub use router_core::RouterCore;
pub use routing::{Routing, is_query_hit};
pub use runs::run_events;
pub use sends::{Sending, Sends};
pub use statistics::{Counter, Stats};
