//! Laws of whole histories in order, and the count that they allow.

ghost use Rattle.gn_laws.specs.Runs.{EachIsRouted, EqualCountsRouteAll};
ghost use Rattle.std.specs.Prelude.{◌≡◌, ◌==◌, ◌↔◌, true, reverse};
ghost use Rattle.gn_rules.specs.declared.config.Config.{Config};
ghost use Rattle.gn_rules.specs.Answer.{IsLegal};
ghost use Rattle.gn_laws.specs.Tickets.{admitted, routed};

use gn_rules::Step;
use std::alloc::Allocator;

/// The law that where these counts are equal each admitted ticket is routed once, and replied Routed or Dropped.
pub fn equal_counts_route_all<A: Allocator>()
    ensures { EqualCountsRouteAll A }
{}

/// Whether every admitted ticket of a legal history is routed: it counts the admissions and the routes in one pass.
pub fn all_routed<A: Allocator>(steps: &[Step<A>]) -> bool
    ensures counts { result ≡ (admitted steps.now == routed steps.now) }
    ensures routed { (s : Config) → IsLegal s (reverse steps.now) → (result ≡ true) ↔ EachIsRouted steps.now }
{
    let mut admissions = 0usize;
    let mut routes = 0usize;
    for step in steps {
        admissions += usize::from(step.reply.admitted().is_some());
        routes += usize::from(step.event.ticket().is_some());
    }
    admissions == routes
}
