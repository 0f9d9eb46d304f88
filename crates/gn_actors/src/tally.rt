//! What an actor's receipts count.

ghost use Rattle.std.specs.Prelude.{◌≡◌, ◌+◌, ◌<◌, ◌^◌, cond};
ghost use Rattle.gn_actors.specs.Tallies.{HasRoom, is_offer, is_taking, no_tally, tally_with};

use gn_rules::{ConnId, Event, Receipt, Reply};
use std::alloc::Allocator;

/// What the receipts of an actor tell, of which it keeps none.
#[derive(Clone, Copy, Debug, PartialEq, Eq)]
pub struct Tally {
    /// The connection that the first reply Connected made.
    pub connection: Option<ConnId>,
    /// Descriptors that the actor offered.
    pub offered: u64,
    /// Those among them that were refused at a threshold, that of all or the link's own.
    pub busy: u64,
    /// Packets that the actor took.
    pub taken: u64,
}

/// Whether a link brings a descriptor by this event.
fn is_offer<A: Allocator>(event: &Event<A>) -> bool
    ensures { result ≡ is_offer event.now }
{
    matches!(event, Event::Admit(..))
}

/// Whether a packet is taken by this reply.
fn is_taking<A: Allocator>(reply: &Reply<A>) -> bool
    ensures { result ≡ is_taking reply.now }
{
    matches!(reply, Reply::Taken(_))
}

/// One more, if this is one.
fn plus(count: u64, is_one: bool) -> u64
    requires { count + 1 < 2 ^ 64 }
    ensures { result ≡ count + cond is_one 1 0 }
{
    if is_one { count + 1 } else { count }
}

impl Tally {
    /// What no receipts tell.
    pub fn new() -> Tally
        ensures { result ≡ no_tally }
    {
        Tally {
            connection: None,
            offered: 0,
            busy: 0,
            taken: 0,
        }
    }

    /// With one receipt more.
    pub(crate) fn with<A: Allocator>(self, receipt: &Receipt<A>) -> Tally
        requires { HasRoom self }
        ensures { result ≡ tally_with self receipt.now }
    {
        Tally {
            connection: self.connection.or(receipt.reply.connected()),
            offered: plus(self.offered, is_offer(&receipt.event)),
            busy: plus(self.busy, receipt.reply.is_at_threshold()),
            taken: plus(self.taken, is_taking(&receipt.reply)),
        }
    }
}
