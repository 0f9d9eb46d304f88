//! How a kind of descriptor is routed.

ghost use Rattle.std.specs.Prelude.{◌≡◌};
ghost use Rattle.gn_rules.specs.Servents.{is_query_hit};

use gn_wire::Kind;

/// How a kind of descriptor is routed.
#[derive(Clone, Copy, Debug, PartialEq, Eq)]
pub enum Routing {
    /// A request, which goes to all.
    Floods,
    /// A response, which goes back the way that its request of this kind came.
    Back(Kind),
    /// It goes where the servent's last Query Hit came from.
    Pushed,
    /// Version 0.4 doesn't name its kind.
    Unnamed,
}

impl Routing {
    ghost use Rattle.gn_rules.specs.Routings.{routing_of};

    /// How the kind is routed.
    pub fn of(kind: Kind) -> Routing
        ensures { result ≡ routing_of kind }
    {
        match kind {
            Kind::Ping | Kind::Query => Routing::Floods,
            Kind::Pong => Routing::Back(Kind::Ping),
            Kind::QueryHit => Routing::Back(Kind::Query),
            Kind::Push => Routing::Pushed,
            Kind::Unknown(_) => Routing::Unnamed,
        }
    }
}

/// Whether a kind is Query Hit.
pub fn is_query_hit(kind: Kind) -> bool
    ensures { result ≡ is_query_hit kind }
{
    matches!(kind, Kind::QueryHit)
}
