//! Descriptors and their payloads in plain words.

ghost use Rattle.std.specs.Prelude.{◌≡◌, IfOk, string_bytes};
ghost use Rattle.std.specs.List.{flat_map};
ghost use Rattle.std.specs.Str.{chars};
ghost use Rattle.serde_json.specs.Data.{string};
ghost use Rattle.serde_json.specs.Written.{compact_text};
ghost use Rattle.gn_payload.specs.Reading.{reading};
ghost use Rattle.gn_payload.specs.Views.{payload_seen, query_fields, result_fields};
ghost use Rattle.gn_show.specs.Pieces.{Puts};
ghost use Rattle.gn_show.specs.Plain.{acts, char_words, code_words, descriptor_words, hit_words, id_words, kind_words, payload_words, place_words, pong_words, push_words, query_words, read_words, result_words, results_words, text_words, unread_words};

use crate::text::utf8;
use crate::words::Words;
use gn_numbers::kind_names;
use gn_payload::{Hit, HitResult, Payload, Pong, Push, Query, read_payload};
use gn_wire::{Descriptor, Guid, Kind};
use serde_json::Value;
use std::alloc::{AllocError, Global};

/// Appends the first four bytes of an ID.
fn push_id(out: &mut Words, id: Guid)
    ensures { Puts out.old out.new (id_words id) }
{
    out.put_hex(&id.0[..4]);
    out.put(b"..");
}

/// Appends an address and its port.
fn push_place(out: &mut Words, ip: [u8; 4], port: u16)
    ensures { Puts out.old out.new (place_words ip port) }
{
    out.put_ip(ip);
    out.put(b":");
    out.put_number(u32::from(port));
}

/// A text in quotes as in JSON.
fn quoted(alloc: Global, text: &str) -> Result<String, AllocError>
    ensures { IfOk result (λ quoted. string_bytes quoted ≡ compact_text (string text.now)) }
{
    let value = Value::try_from_str(alloc, text)?;
    let quoted = value.to_string(alloc);
    drop(value);
    quoted
}

/// Whether a terminal or a reader of lines may act on a character.
fn acts(c: char) -> bool
    ensures { result ≡ acts c }
{
    matches!(
        c,
        '\u{7f}'..='\u{9f}'
            | '\u{61c}'
            | '\u{200e}'..='\u{200f}'
            | '\u{2028}'..='\u{202e}'
            | '\u{2066}'..='\u{2069}'
    )
}

/// Appends a character, or how JSON escapes it where it acts.
fn push_char(out: &mut Words, c: char)
    ensures { Puts out.old out.new (char_words c) }
{
    if !acts(c) {
        return out.put(c.encode_utf8(&mut [0; 4]).as_bytes());
    }
    let code = u32::from(c);
    out.put(b"\\u");
    out.put_hex(&[(code / 256) as u8, (code % 256) as u8]);
}

/// Appends the characters of a text, of which none acts then.
fn push_inert(out: &mut Words, text: &str)
    ensures { Puts out.old out.new (flat_map char_words (chars text.now)) }
{
    for c in text.chars() {
        push_char(out, c);
    }
}

/// Appends a text in quotes as in JSON, with no character that acts.
fn push_quoted(out: &mut Words, text: &str)
    ensures { Puts out.old out.new (flat_map char_words (chars (compact_text (string text.now)))) }
{
    match quoted(out.alloc(), text) {
        Ok(quoted) => push_inert(out, quoted.as_str()),
        Err(_) => out.run_out(),
    }
}

/// Appends a text in quotes as in JSON, so that a line feed in it ends no line and a terminal does nothing; or its bytes in hex.
fn push_text(out: &mut Words, text: &[u8])
    ensures { Puts out.old out.new (text_words text.now) }
{
    match utf8(text) {
        Some(text) => push_quoted(out, text),
        None => {
            out.put(b"hex ");
            out.put_hex(text);
        }
    }
}

/// Appends what a Pong says.
fn push_pong(out: &mut Words, pong: &Pong)
    ensures { Puts out.old out.new (pong_words pong.now) }
{
    out.put(b" ");
    push_place(out, pong.ip, pong.port);
    out.put(b" ");
    out.put_number(pong.files);
    out.put(b" files ");
    out.put_number(pong.kbytes);
    out.put(b" kB");
}

/// Appends what a Push says.
fn push_push(out: &mut Words, push: &Push)
    ensures { Puts out.old out.new (push_words push.now) }
{
    out.put(b" servent ");
    push_id(out, push.servent);
    out.put(b" file ");
    out.put_number(push.file);
    out.put(b" to ");
    push_place(out, push.ip, push.port);
}

/// Appends what a Query says.
fn push_query(out: &mut Words, query: &Query<'_>)
    ensures { Puts out.old out.new (query_words (query_fields query.now)) }
{
    out.put(b" ");
    push_text(out, query.text);
    out.put(b" speed ");
    out.put_number(u32::from(query.speed));
}

/// Appends one result of a Query Hit.
fn push_result(out: &mut Words, found: &HitResult<'_>)
    ensures { Puts out.old out.new (result_words (result_fields found.now)) }
{
    out.put(b", file ");
    out.put_number(found.file);
    out.put(b" ");
    push_text(out, found.name);
    out.put(b" of ");
    out.put_number(found.size);
    out.put(b" bytes");
}

/// Appends the results of a Query Hit, in order.
fn push_results(out: &mut Words, hit: &Hit<'_>)
    ensures { Puts out.old out.new (results_words hit.now.results) }
{
    for found in hit.results() {
        push_result(out, &found);
    }
}

/// Appends what a Query Hit says.
fn push_hit(out: &mut Words, hit: &Hit<'_>)
    ensures { Puts out.old out.new (hit_words hit.now) }
{
    out.put(b" servent ");
    push_id(out, hit.servent());
    out.put(b" ");
    push_place(out, hit.ip(), hit.port());
    out.put(b" speed ");
    out.put_number(hit.speed());
    push_results(out, hit);
}

/// A payload that has no reading, or that of an unknown kind.
fn push_unread(out: &mut Words, payload: &[u8])
    ensures { Puts out.old out.new (unread_words payload.now) }
{
    out.put(b" unread ");
    out.put_hex(payload);
}

/// Appends what a payload says: of a Ping nothing.
fn push_read(out: &mut Words, read: &Payload<'_>)
    ensures { Puts out.old out.new (read_words (payload_seen read.now)) }
{
    match read {
        Payload::Ping => {}
        Payload::Pong(pong) => push_pong(out, pong),
        Payload::Push(push) => push_push(out, push),
        Payload::Query(query) => push_query(out, query),
        Payload::Hit(hit) => push_hit(out, hit),
    }
}

/// Appends what the payload of a descriptor of this kind says.
fn push_payload(out: &mut Words, kind: Kind, payload: &[u8])
    ensures { Puts out.old out.new (payload_words payload.now (reading kind payload.now)) }
{
    match read_payload(kind, payload) {
        Some(read) => push_read(out, &read),
        None => push_unread(out, payload),
    }
}

/// Appends the code of a kind that version 0.4 doesn't name.
fn push_code(out: &mut Words, kind: Kind)
    ensures { Puts out.old out.new (code_words kind) }
{
    match kind {
        Kind::Unknown(code) => {
            out.put(b" ");
            out.put_number(u32::from(code));
        }
        _ => {}
    }
}

/// Appends a kind in words.
fn push_kind(out: &mut Words, kind: Kind)
    ensures { Puts out.old out.new (kind_words kind) }
{
    out.put(kind_names(kind).title.as_bytes());
    push_code(out, kind);
}

/// Appends a descriptor: its kind, `TTL/HOPS`, the first four bytes of its ID, and what its payload says.
pub(crate) fn push_descriptor(out: &mut Words, descriptor: &Descriptor)
    ensures { Puts out.old out.new (descriptor_words descriptor.now) }
{
    push_kind(out, descriptor.kind());
    out.put(b" ");
    out.put_number(u32::from(descriptor.ttl()));
    out.put(b"/");
    out.put_number(u32::from(descriptor.hops()));
    out.put(b" ");
    push_id(out, descriptor.id());
    push_payload(out, descriptor.kind(), descriptor.payload().as_slice());
}
