//! Links that come one after another, in roles that are known.

ghost use Rattle.std.specs.Prelude.{◌≡◌};

use crate::arrivals::Arrivals;
use gn_links::Place;
use gn_room::Waiting;
use gn_shake::Role;
use gn_start::{Coming, Incoming, NewLink, RunFault};
use std::sync::Wait;

/// Links that come in these roles, in order.
#[derive(Drop)]
pub(crate) struct InOrder<'r, V> {
    pub arrivals: V,
    /// Those of the links that are still to come.
    pub roles: &'r [Role],
}

impl<'r, V: Arrivals> Incoming for InOrder<'r, V> {
    ghost use Rattle.std.specs.Prelude.{true};
    ghost use Rattle.gn_threads.specs.Left.{ends_in, may_in};

    type Origin = V::Origin;

    type Foreknown = V::Foreknown;

    type Reader = V::Reader;

    type Writer = V::Writer;

    ghost has_peers = { V.has_peers };

    ghost is_known = { true };

    ghost foreknown = { V.foreknown };

    ghost may_come = { λ order k role known. may_in order.roles.now (V.coming order.arrivals) k role known };

    ghost may_end = { λ order k. ends_in order.roles.now k };

    fn next<R: Wait>(
        &mut self,
        rt: &R,
        link: u32,
        place: Option<Place>,
        waiting: &Waiting<'_>,
    ) -> Result<Coming<V::Reader, V::Writer>, RunFault> {
        let Some((role, rest)) = self.roles.split_first() else {
            return Ok(Coming::Over);
        };
        if place.is_none() {
            waiting.wait(rt);
            return Ok(Coming::Nobody);
        }
        let (reader, writer) = self.arrivals.next(link, *role)?;
        let role = *role;
        self.roles = rest;
        Ok(Coming::Link(NewLink {
            role,
            reader,
            writer,
        }))
    }
}
