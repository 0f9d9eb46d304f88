//! The laws of the grammar.

ghost use Rattle.std.specs.Prelude.{◌≡◌, ◌↔◌, ℕ, List, IsTrue, Some, is_some};
ghost use Rattle.gn_wire.specs.declared.kind.Kind.{Kind};
ghost use Rattle.gn_wire.specs.Packet.{Packet};
ghost use Rattle.gn_payload.specs.declared.pong.Pong.{Pong};
ghost use Rattle.gn_payload.specs.declared.push.Push.{Push};
ghost use Rattle.gn_payload.specs.Fields.{QueryFields, HitFields};
ghost use Rattle.gn_payload.specs.Grammar.{IsPong, IsPush, IsQuery, IsHit};
ghost use Rattle.gn_payload.specs.Reading.{HasReading, IsReading, Read, has_reading, is_sound, reading};

/// The law that a payload has at most one reading.
pub fn one_reading()
    ensures pong { (bytes : List ℕ) (p q : Pong) → IsPong bytes p → IsPong bytes q → p ≡ q }
    ensures push { (bytes : List ℕ) (p q : Push) → IsPush bytes p → IsPush bytes q → p ≡ q }
    ensures query { (bytes : List ℕ) (p q : QueryFields) → IsQuery bytes p → IsQuery bytes q → p ≡ q }
    ensures hit { (bytes : List ℕ) (p q : HitFields) → IsHit bytes p → IsHit bytes q → p ≡ q }
{}

/// The law that the test of soundness is exact: a descriptor passes where the grammar reads its payload, and nowhere
/// else.
pub fn sound_is_read()
    ensures { (d : Packet) → IsTrue (is_sound d) ↔ HasReading d.kind d.payload }
{}

/// The law that what a payload of any kind is read as is the grammar's reading of it, and that it is read exactly where the
/// test of soundness passes.
pub fn readings_are_grammar()
    ensures grammar { (kind : Kind) (bytes : List ℕ) (read : Read)
        → (reading kind bytes ≡ Some read) ↔ IsReading kind bytes read }
    ensures sound { (kind : Kind) (bytes : List ℕ) → is_some (reading kind bytes) ≡ has_reading kind bytes }
{}
