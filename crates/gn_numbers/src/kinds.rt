//! The names of kinds.

ghost use Rattle.std.specs.Prelude.{◌≡◌};
ghost use Rattle.gn_numbers.specs.Names.{kind_names};

use gn_wire::Kind;

/// What a kind is called: in lines of faults, in JSON and rows, and in plain words.
#[derive(Clone, Copy, Debug)]
pub struct KindNames {
    pub word: &'static str,
    pub json: &'static str,
    pub title: &'static str,
}

/// Three names.
fn three(word: &'static str, json: &'static str, title: &'static str) -> KindNames
    ensures word { result.word.now ≡ word.now }
    ensures json { result.json.now ≡ json.now }
    ensures title { result.title.now ≡ title.now }
{
    KindNames { word, json, title }
}

/// The names of a kind.
pub fn kind_names(kind: Kind) -> KindNames
    ensures word { result.word.now ≡ (kind_names kind).word }
    ensures json { result.json.now ≡ (kind_names kind).json }
    ensures title { result.title.now ≡ (kind_names kind).title }
{
    match kind {
        Kind::Ping => three("ping", "ping", "Ping"),
        Kind::Pong => three("pong", "pong", "Pong"),
        Kind::Push => three("push", "push", "Push"),
        Kind::Query => three("query", "query", "Query"),
        Kind::QueryHit => three("queryhit", "query_hit", "Query Hit"),
        Kind::Unknown(_) => three("unknown", "unknown", "kind"),
    }
}
