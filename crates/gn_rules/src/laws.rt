//! Laws of the rules that no one call proves.

ghost use Rattle.gn_rules.specs.Fits.{AnswersFit, CheckedAnswersFit};
ghost use Rattle.gn_rules.specs.Laws.{CountersAddUp, CountersCount, LiveConnectionsRise, OutputIsUntaken, RunsAgree, RunsAgreeSoFar, RunsStayLegal};
ghost use Rattle.gn_rules.specs.ServentLaw.{ServentRouteIsLast};

use std::alloc::Allocator;

/// The law that a connection's output is what was queued to it and not taken yet.
pub fn output_is_untaken<A: Allocator>()
    ensures { OutputIsUntaken A }
{}

/// The law that the live connections stand in the order of their numbers.
pub fn live_connections_rise<A: Allocator>()
    ensures { LiveConnectionsRise A }
{}

/// The law that the route to a servent is that of its last Query Hit, where fewer other servents than are remembered follow.
pub fn servent_route_is_last<A: Allocator>()
    ensures { ServentRouteIsLast A }
{}

/// The law that routers of one configuration which begin alike answer alike.
pub fn runs_agree<A: Allocator>()
    ensures { RunsAgree A }
{}

/// The law that such routers answer alike up to the first answer of either that is out of memory.
pub fn runs_agree_so_far<A: Allocator>()
    ensures { RunsAgreeSoFar A }
{}

/// The law that a router's history stays legal, whatever memory it was refused.
pub fn runs_stay_legal<A: Allocator>()
    ensures { RunsStayLegal A }
{}

/// The law that each step is counted once.
pub fn counters_add_up<A: Allocator>()
    ensures { CountersAddUp A }
{}

/// The law that each counter is the number of its steps.
pub fn counters_count<A: Allocator>()
    ensures { CountersCount A }
{}

/// The law that what the rules answer to an event is a reply or a refusal that it may have.
pub fn answers_fit<A: Allocator>()
    ensures { AnswersFit A }
{}

/// The law that the same holds of a Route whose descriptor was checked beforehand.
pub fn checked_answers_fit<A: Allocator>()
    ensures { CheckedAnswersFit A }
{}
