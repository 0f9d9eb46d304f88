//! What is left of a reply's sends, after those that were looked for.

ghost use Rattle.std.specs.Prelude.{◌≡◌};
ghost use Rattle.std.specs.Option.{option_copied};
ghost use Rattle.gn_decide.specs.Made.{made_packet};
ghost use Rattle.gn_router.specs.Rest as rest;

use gn_decide::{Made, Outbox};
use gn_rules::{ConnId, Sending};
use std::alloc::Allocator;
use std::convert::Infallible;
use std::marker::Model;

/// An outbox that looks for each send among those of a reply, in order: what is left of them, or nothing where one of
/// those that were looked for wasn't the next.
#[derive(Drop)]
pub(crate) struct Rest<'a, A: Allocator> {
    left: Option<&'a [Sending<A>]>,
}

impl<'a, A: Allocator> Model for Rest<'a, A> {
    ghost use Rattle.std.specs.Option.{option_copied};
    ghost use Rattle.std.specs.Prelude.{List, Option};
    ghost use Rattle.gn_rules.specs.declared.sends.Sending.{Sending};

    ghost Value = { Option (List (Sending A)) };

    ghost view = { λ r. option_copied r.left };
}

/// What is left of the sends without the first, where that is the send of the packet.
fn without_first<'a, A: Allocator>(
    left: Option<&'a [Sending<A>]>,
    to: ConnId,
    packet: &Made<'_, A>,
    queued: bool,
) -> Option<&'a [Sending<A>]>
    ensures { option_copied result ≡ rest.without_first
        (record { to = to; packet = made_packet packet.now; queued = queued }) (option_copied left.entry) }
{
    let (first, others) = left?.split_first()?;
    if to == first.to && packet.is(&first.packet) && queued == first.queued {
        Some(others)
    } else {
        None
    }
}

impl<'a, A: Allocator> Rest<'a, A> {
    ghost use Rattle.std.specs.Prelude.{Some};

    /// These sends, before any was looked for.
    pub(crate) fn new(sends: &'a [Sending<A>]) -> Self
        ensures { result ≡ Some sends.now }
    {
        Rest { left: Some(sends) }
    }

    /// Whether each send that was looked for was there, and none is left.
    pub(crate) fn is_end(&self) -> bool
        ensures { result ≡ rest.is_end self.now }
    {
        match self.left {
            None => false,
            Some(sends) => sends.is_empty(),
        }
    }
}

impl<'a, A: Allocator> Outbox<A> for Rest<'a, A> {
    ghost use Rattle.gn_router.specs.Rest as rest;

    type Fault = Infallible;

    ghost after = { λ left x. rest.without_first x left };

    fn send(&mut self, to: ConnId, packet: &Made<'_, A>, queued: bool) -> Result<(), Infallible> {
        self.left = without_first(self.left, to, packet, queued);
        Ok(())
    }
}
