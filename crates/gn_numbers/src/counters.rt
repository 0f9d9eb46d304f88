//! The names of counters, which name replies and reasons to drop, too.

ghost use Rattle.std.specs.Prelude.{◌≡◌};
ghost use Rattle.gn_numbers.specs.Names.{counter_name, counter_named, reason_name, reason_named};

use crate::named::named;
use gn_rules::{Counter, DropReason};

/// The names of the counters, each at its counter's place.
const COUNTERS: [(&str, Counter); 16] = [
    ("connected", Counter::Connected),
    ("toomany", Counter::TooMany),
    ("closed", Counter::Closed),
    ("admitted", Counter::Admitted),
    ("busy", Counter::Busy),
    ("crowded", Counter::Crowded),
    ("routed", Counter::Routed),
    ("unknownkind", Counter::UnknownKind),
    ("malformed", Counter::Malformed),
    ("duplicate", Counter::Duplicate),
    ("noroute", Counter::NoRoute),
    ("routegone", Counter::RouteGone),
    ("backtosender", Counter::BackToSender),
    ("expired", Counter::Expired),
    ("taken", Counter::Taken),
    ("sent", Counter::Sent),
];

/// The name of a counter.
pub fn counter_name(counter: Counter) -> &'static str
    ensures { result.now ≡ counter_name counter }
{
    COUNTERS[counter as usize].0
}

/// The counter that a field names.
pub fn counter_named(field: &[u8]) -> Option<Counter>
    ensures { result ≡ counter_named field.now }
{
    named(&COUNTERS, field)
}

/// The name of a reason to drop.
pub fn reason_name(reason: DropReason) -> &'static str
    ensures { result.now ≡ reason_name reason }
{
    counter_name(Counter::of_drop(reason))
}

/// The reason to drop that a field names.
pub fn reason_named(field: &[u8]) -> Option<DropReason>
    ensures { result ≡ reason_named field.now }
{
    DropReason::of(counter_named(field)?)
}
