//! What any event is answered, before any packet is made: found by look-ups of the past, by the rules' decision tree.
#![tactic(auto)]

mod deciding;
mod lookup;
mod made;
mod outbox;
mod plan;
mod planning;
mod sending;

pub use deciding::decide;
pub use lookup::Lookup;
pub use made::{Forwarded, Made};
pub use outbox::Outbox;
pub use plan::{Found, Outgoing, Places, Plan};
pub use planning::{plan_checked, plan_of};
pub use sending::send_all;
