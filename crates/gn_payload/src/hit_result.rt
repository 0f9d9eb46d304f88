//! The results in a Query Hit.

ghost use Rattle.std.specs.Prelude.{◌≡◌, option_map, None, Some, MatchOption};
ghost use Rattle.gn_payload.specs.Reading.{result_reading, results_reading, results_in, AreJust};
ghost use Rattle.gn_payload.specs.Views.{result_fields};

use crate::parts::split_text;
use byteorder::{ByteOrder, LittleEndian};
use std::marker::Model;

/// A file that a servent has (Gnutella v0.4, "Query Hit", "Result Set").
#[derive(Clone, Copy, Debug, PartialEq, Eq)]
pub struct HitResult<'a> {
    /// The file's index among those of the servent.
    pub file: u32,
    /// Its size in bytes.
    pub size: u32,
    /// Its name, none of whose bytes is zero.
    pub name: &'a [u8],
    /// What stands between the name's end and the result's, none of whose bytes is zero.
    pub extra: &'a [u8],
}

/// The first result, and what follows it.
fn first_result(bytes: &[u8]) -> Option<(HitResult<'_>, &[u8])>
    ensures { option_map (λ x. (result_fields x.0, x.1.now)) result ≡ result_reading bytes.now }
{
    if bytes.len() < 8 {
        return None;
    }
    let (name, more) = split_text(&bytes[8..])?;
    let (extra, rest) = split_text(more)?;
    let result = HitResult {
        file: LittleEndian::read_u32(bytes),
        size: LittleEndian::read_u32(&bytes[4..]),
        name,
        extra,
    };
    Some((result, rest))
}

/// What follows so many results.
fn past_results(count: u8, bytes: &[u8]) -> Option<&[u8]>
    ensures { option_map (λ x. x.now) result ≡ option_map (λ x. x.1) (results_reading count bytes.now) }
{
    let mut rest = bytes;
    for _ in 0..count {
        let (_, more) = first_result(rest)?;
        rest = more;
    }
    Some(rest)
}

/// So many results, and what follows them.
#[tactic(auto, using(crate::proofs::ResultLemmas::past_nothing))]
pub(crate) fn split_results(count: u8, bytes: &[u8]) -> Option<(&[u8], &[u8])>
    ensures { MatchOption result (results_reading count bytes.now ≡ None)
        (λ x. AreJust count x.0.now × (results_reading count bytes.now ≡ Some (results_in count x.0.now, x.1.now))) }
{
    let rest = past_results(count, bytes)?;
    Some((&bytes[..bytes.len() - rest.len()], rest))
}

/// The results of a Query Hit, one after another.
#[derive(Debug, Drop)]
pub struct Results<'a> {
    left: u8,
    bytes: &'a [u8],
}

impl<'a> Model for Results<'a> {
    ghost use Rattle.std.specs.Prelude.{List};
    ghost use Rattle.gn_payload.specs.Fields.{ResultFields};
    ghost use Rattle.gn_payload.specs.Reading.{results_in, AreJust};

    ghost Value = { List ResultFields };

    ghost view = { λ r. results_in r.left r.bytes.now };

    ghost invariant = { λ r. AreJust r.left r.bytes.now };
}

impl<'a> Results<'a> {
    /// Those that the bytes are.
    pub(crate) fn of(left: u8, bytes: &'a [u8]) -> Self
        requires { AreJust left bytes.now }
        ensures { result ≡ results_in left bytes.now }
    {
        Results { left, bytes }
    }
}

impl<'a> Iterator for Results<'a> {
    ghost use Rattle.std.specs.Iterator.{YieldsFirstBy, item_count};

    type Item = HitResult<'a>;

    ghost next_gives = { YieldsFirstBy result_fields (λ s. s) };

    ghost remaining = { item_count (λ s. s) };

    fn next(&mut self) -> Option<HitResult<'a>> {
        if self.left == 0 {
            return None;
        }
        let (first, rest) = first_result(self.bytes)?;
        self.left -= 1;
        self.bytes = rest;
        Some(first)
    }
}
