//! The lines of a configuration, read and written.
#![tactic(auto, using(crate::proofs::KeptLemmas::kept))]

ghost use Rattle.std.specs.Prelude.{◌≡◌, ◌≤◌, codes, map, IfOk, IfSome, ◌++◌, OnOk, OnErr};
ghost use Rattle.gn_rules.specs.Limits.{AreWithin};
ghost use Rattle.gn_text.specs.Settings.{config_of, numbers_parsed, numbers_within, own_of, servent_parsed, six_text, own_text};
ghost use Rattle.gn_text.specs.Parts.{config_parts};
ghost use Rattle.gn_numbers.specs.Versions.{later_text, version_for};

use crate::address::ip;
use crate::line::is_word;
use crate::octets::guid;
use crate::part::{Part, push_parts};
use gn_numbers::{Version, least_version, number, number_u16, read_later};
use gn_rules::{Numbers, Own};
use std::alloc::{AllocError, Allocator};

/// These numbers, where each is within its limit.
fn within(numbers: Numbers) -> Option<Numbers>
    ensures value { result ≡ numbers_within numbers }
    ensures each { IfSome result AreWithin }
{
    match numbers.first_out() {
        Some(_) => None,
        None => Some(numbers),
    }
}

/// The numbers of a `config` line of this version, each within its limits.
#[tactic(auto, using(crate::proofs::SettingsLemmas::later_missing))]
fn read_numbers(version: Version, fields: &[&[u8]]) -> Option<Numbers>
    ensures value { result ≡ numbers_parsed version (map (λ x. x.now) fields.now) }
    ensures each { IfSome result AreWithin }
{
    let [k, n, m, t, w, h, later @ ..] = fields else {
        return None;
    };
    let later = read_later(version, later)?;
    within(Numbers {
        neighbours: number(k)?,
        seen: number(n)?,
        servents: number(m)?,
        stage: number(t)?,
        out: number(w)?,
        steps: number(h)?,
        life: later.life,
        crowd: later.crowd,
    })
}

/// The numbers that the fields of a line `config K N M T W H` say, in the second version with L behind them and in the third
/// with L and Q. Where one is out of its limit they say none.
pub fn read_config(version: Version, fields: &[&[u8]]) -> Option<Numbers>
    ensures value { result ≡ config_of version (map (λ x. x.now) fields.now) }
    ensures each { IfSome result AreWithin }
{
    match fields {
        [word, numbers @ ..] if is_word(word, b"config") => read_numbers(version, numbers),
        _ => None,
    }
}

/// The own servent that an `own` line says. An `Err` is out of memory.
fn read_servent<A: Allocator + Copy>(alloc: A, fields: &[&[u8]]) -> Result<Option<Own>, AllocError>
    ensures { IfOk result (λ own. own ≡ servent_parsed (map (λ x. x.now) fields.now)) }
{
    let [servent, address, port, files, kbytes] = fields else {
        return Ok(None);
    };
    let Some(servent) = guid(servent) else {
        return Ok(None);
    };
    let Some(ip) = ip(alloc, address)? else {
        return Ok(None);
    };
    let Some(port) = number_u16(port) else {
        return Ok(None);
    };
    let Some(files) = number(files) else {
        return Ok(None);
    };
    let Some(kbytes) = number(kbytes) else {
        return Ok(None);
    };
    Ok(Some(Own {
        servent,
        ip,
        port,
        files,
        kbytes,
    }))
}

/// The servent that the fields of a line `own SERVENT IP PORT FILES KBYTES` say. An `Err` is out of memory.
pub fn read_own<A: Allocator + Copy>(alloc: A, fields: &[&[u8]]) -> Result<Option<Own>, AllocError>
    ensures { IfOk result (λ own. own ≡ own_of (map (λ x. x.now) fields.now)) }
{
    match fields {
        [word, known @ ..] if is_word(word, b"own") => read_servent(alloc, known),
        _ => Ok(None),
    }
}

/// How many parts of the line `config` this version has.
fn parts_of(version: Version) -> usize
    ensures count { result ≡ config_parts version }
    ensures within { result ≤ 16 }
{
    match version {
        Version::First => 12,
        Version::Second => 14,
        Version::Third => 16,
    }
}

/// Appends the line `config`, with the numbers of the least version that can say it, up to its line feed. An `Err` is out of
/// memory, and changes nothing.
pub(crate) fn push_config<B: Allocator>(
    out: &mut Vec<u8, B>,
    numbers: &Numbers,
) -> Result<(), AllocError>
    ensures ok { OnOk result (out.new.items
        ≡ out.old.items ++ (six_text numbers.now ++ later_text (version_for numbers.now) numbers.now)) }
    ensures err { OnErr result (out.new.items ≡ out.old.items) }
{
    let parts: &[Part] = &[
        Part::Word(b"config "),
        Part::Number(numbers.neighbours),
        Part::Word(b" "),
        Part::Number(numbers.seen),
        Part::Word(b" "),
        Part::Number(numbers.servents),
        Part::Word(b" "),
        Part::Number(numbers.stage),
        Part::Word(b" "),
        Part::Number(numbers.out),
        Part::Word(b" "),
        Part::Number(numbers.steps),
        Part::Word(b" "),
        Part::Number(u32::from(numbers.life)),
        Part::Word(b" "),
        Part::Number(numbers.crowd),
    ];
    push_parts(out, &parts[..parts_of(least_version(numbers))])
}

/// Appends the line feed of the line before it, and the line `own`. An `Err` is out of memory, and changes nothing.
pub(crate) fn push_own<B: Allocator>(out: &mut Vec<u8, B>, own: &Own) -> Result<(), AllocError>
    ensures ok { OnOk result (out.new.items ≡ out.old.items ++ (codes "\n" ++ own_text own.now)) }
    ensures err { OnErr result (out.new.items ≡ out.old.items) }
{
    let [a, b, c, d] = own.ip;
    push_parts(
        out,
        &[
            Part::Word(b"\nown "),
            Part::Hex(&own.servent.0),
            Part::Word(b" "),
            Part::Number(u32::from(a)),
            Part::Word(b"."),
            Part::Number(u32::from(b)),
            Part::Word(b"."),
            Part::Number(u32::from(c)),
            Part::Word(b"."),
            Part::Number(u32::from(d)),
            Part::Word(b" "),
            Part::Number(u32::from(own.port)),
            Part::Word(b" "),
            Part::Number(own.files),
            Part::Word(b" "),
            Part::Number(own.kbytes),
            Part::Word(b"\n"),
        ],
    )
}
