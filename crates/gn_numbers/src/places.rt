//! The names of the places that a routed descriptor reaches.

ghost use Rattle.std.specs.Prelude.{◌≡◌};
ghost use Rattle.gn_numbers.specs.Names.{place_name, place_named};

use crate::named::named;

/// Where a descriptor goes that the local servent gets, too.
const LOCAL: &str = "local";

/// Where one goes that it doesn't.
const AWAY: &str = "away";

/// `local`, where the local servent gets a descriptor; else `away`.
pub fn place_name(local: bool) -> &'static str
    ensures { result.now ≡ place_name local }
{
    if local { LOCAL } else { AWAY }
}

/// Whether the local servent gets a descriptor, by the name of the place.
pub fn place_named(field: &[u8]) -> Option<bool>
    ensures { result ≡ place_named field.now }
{
    named(&[(LOCAL, true), (AWAY, false)], field)
}
