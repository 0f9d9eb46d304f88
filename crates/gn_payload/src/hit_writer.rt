//! A Query Hit's payload, written.

ghost use Rattle.std.specs.Prelude.{◌≡◌, ◌≤◌, ◌<◌, ◌+◌, ◌∷◌, ◌++◌, length, map, OnOk, OnErr, IfErr, MatchOption, vec_len, vec_capacity};
ghost use Rattle.std.specs.List.{AllByRecursion, list_any};
ghost use Rattle.byteorder.specs.Endian.{little_bytes};
ghost use Rattle.gn_payload.specs.declared.refusal.WriteRefusal.TheVariants.{NoMemory};
ghost use Rattle.gn_payload.specs.Grammar.{IsHit};
ghost use Rattle.gn_payload.specs.Refusals.{Refuses, hit_refusal, zero_in_result};
ghost use Rattle.gn_payload.specs.Encoding.{HasNumbers, hit_bytes, result_bytes, results_bytes};
ghost use Rattle.gn_payload.specs.Views.{hit_fields, result_fields};

use crate::hit_result::HitResult;
use crate::parts::has_zero;
use crate::put::{put, put_ended, put_u16, put_u32};
use crate::refusal::WriteRefusal;
use gn_wire::Guid;
use std::alloc::Allocator;

/// Whether a zero byte stands in the name or the extra text.
fn has_zero_in(entry: &HitResult<'_>) -> bool
    ensures { result ≡ zero_in_result (result_fields entry.now) }
{
    has_zero(entry.name) || has_zero(entry.extra)
}

/// Whether a zero byte stands in a name or an extra text.
fn any_zero(results: &[HitResult<'_>]) -> bool
    ensures { result ≡ list_any (λ entry. zero_in_result (result_fields entry)) results.now }
{
    results.iter().any(|entry| has_zero_in(entry))
}

/// What is left of so many bytes after a result. `None` where it doesn't fit.
fn room_after(entry: &HitResult<'_>, room: usize) -> Option<usize>
    ensures { MatchOption result (room < length (result_bytes (result_fields entry.now)))
        (λ left. left + length (result_bytes (result_fields entry.now)) ≡ room) }
{
    room.checked_sub(10)?
        .checked_sub(entry.name.len())?
        .checked_sub(entry.extra.len())
}

/// How many bytes a Query Hit has with these results and this trailer. `None` where they are more than 65,536.
#[tactic(auto, using(crate::proofs::EntryLemmas::entry_within))]
fn hit_size(results: &[HitResult<'_>], trailer: &[u8]) -> Option<usize>
    ensures { let bytes = 27 + length (results_bytes (map result_fields results.now)) + length trailer.now in
        MatchOption result (65536 < bytes) (λ size. (size ≡ bytes) × (size ≤ 65536)) }
{
    let mut left = 65_509;
    for entry in results {
        left = room_after(entry, left)?;
    }
    let left = left.checked_sub(trailer.len())?;
    Some(65_536 - left)
}

/// Appends a result.
fn put_result<B: Allocator>(out: &mut Vec<u8, B>, entry: &HitResult<'_>)
    requires { vec_len out.old + length (result_bytes (result_fields entry.now)) ≤ vec_capacity out.old }
    ensures items { out.new.items ≡ out.old.items ++ result_bytes (result_fields entry.now) }
    ensures len { vec_len out.new ≡ vec_len out.old + length (result_bytes (result_fields entry.now)) }
    ensures capacity { vec_capacity out.old ≤ vec_capacity out.new }
    ensures numbers { HasNumbers (result_fields entry.now) }
{
    put_u32(out, entry.file);
    put_u32(out, entry.size);
    put_ended(out, entry.name);
    put_ended(out, entry.extra);
}

/// Appends results.
#[tactic(auto, using(crate::proofs::EntryLemmas::entry_within))]
fn put_results<B: Allocator>(out: &mut Vec<u8, B>, results: &[HitResult<'_>])
    requires { vec_len out.old + length (results_bytes (map result_fields results.now)) ≤ vec_capacity out.old }
    ensures items { out.new.items ≡ out.old.items ++ results_bytes (map result_fields results.now) }
    ensures len { vec_len out.new ≡ vec_len out.old + length (results_bytes (map result_fields results.now)) }
    ensures capacity { vec_capacity out.old ≤ vec_capacity out.new }
    ensures numbers { AllByRecursion HasNumbers (map result_fields results.now) }
{
    for entry in results {
        put_result(out, entry);
    }
}

/// Appends the 11 bytes before the results.
fn put_head<B: Allocator>(out: &mut Vec<u8, B>, hits: u8, port: u16, ip: &[u8; 4], speed: u32)
    requires { vec_len out.old + 11 ≤ vec_capacity out.old }
    ensures items { out.new.items ≡ out.old.items ++ (hits ∷ little_bytes 2 port ++ ip.now ++ little_bytes 4 speed) }
    ensures len { vec_len out.new ≡ vec_len out.old + 11 }
    ensures capacity { vec_capacity out.old ≤ vec_capacity out.new }
{
    put(out, &[hits]);
    put_u16(out, port);
    put(out, ip);
    put_u32(out, speed);
}

/// Appends the bytes of a Query Hit. `NoMemory` comes only where the vector has no room for them, and a refusal changes
/// nothing.
pub fn write_hit<B: Allocator>(
    port: u16,
    ip: [u8; 4],
    speed: u32,
    results: &[HitResult<'_>],
    trailer: &[u8],
    servent: Guid,
    out: &mut Vec<u8, B>,
) -> Result<(), WriteRefusal>
    ensures ok { let hit = hit_fields port ip speed results.now trailer.now servent in
        OnOk result (out.new.items ≡ out.old.items ++ hit_bytes hit) }
    ensures read { let hit = hit_fields port ip speed results.now trailer.now servent in
        OnOk result (IsHit (hit_bytes hit) hit) }
    ensures refusal { Refuses result (hit_refusal (hit_fields port ip speed results.now trailer.now servent)) }
    ensures err { OnErr result (out.new.items ≡ out.old.items) }
    ensures full { let hit = hit_fields port ip speed results.now trailer.now servent in
        IfErr result (λ e. e ≡ NoMemory → vec_capacity out.old < vec_len out.old + length (hit_bytes hit)) }
{
    if any_zero(results) {
        return Err(WriteRefusal::ZeroInText);
    }
    if results.len() > 255 {
        return Err(WriteRefusal::TooManyHits);
    }
    let Some(size) = hit_size(results, trailer) else {
        return Err(WriteRefusal::TooLong);
    };
    if out.reserve(size).is_err() {
        return Err(WriteRefusal::NoMemory);
    }
    put_head(out, results.len() as u8, port, &ip, speed);
    put_results(out, results);
    put(out, trailer);
    put(out, &servent.0);
    Ok(())
}
