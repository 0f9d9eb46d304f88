//! Payloads as JSON.

ghost use Rattle.std.specs.Prelude.{map};
ghost use Rattle.serde_json.specs.Data.{array, no_members, object};
ghost use Rattle.serde_json.specs.View.{items_of};
ghost use Rattle.gn_payload.specs.Reading.{reading};
ghost use Rattle.gn_payload.specs.Views.{payload_seen, query_fields, result_fields};
ghost use Rattle.gn_show.specs.Pieces.{Puts};
ghost use Rattle.gn_show.specs.Tokens.{text_tokens, tokens_of};
ghost use Rattle.gn_show.specs.Values.{hit_data, payload_data, pong_data, push_data, query_data, read_data, result_data, unread_data};

use crate::text::utf8;
use crate::tokens::Tokens;
use gn_payload::{Hit, HitResult, Payload, Pong, Push, Query, read_payload};
use gn_wire::Kind;

/// Writes the payload of a Pong.
fn put_pong(tokens: &mut Tokens, pong: &Pong)
    ensures { Puts tokens.old tokens.new (tokens_of (pong_data pong.now)) }
{
    tokens.begin_object();
    tokens.put_number("files", pong.files);
    tokens.put_ip("ip", pong.ip);
    tokens.put_number("kilobytes", pong.kbytes);
    tokens.put_number("port", u32::from(pong.port));
    tokens.end_object();
}

/// Writes the payload of a Push.
fn put_push(tokens: &mut Tokens, push: &Push)
    ensures { Puts tokens.old tokens.new (tokens_of (push_data push.now)) }
{
    tokens.begin_object();
    tokens.put_number("index", push.file);
    tokens.put_ip("ip", push.ip);
    tokens.put_number("port", u32::from(push.port));
    tokens.put_hex("servent", &push.servent.0);
    tokens.end_object();
}

/// Writes a text that is UTF-8 under its name; the bytes of another in hex, under the other name.
fn put_words(tokens: &mut Tokens, name: &str, hex_name: &str, bytes: &[u8])
    ensures { Puts tokens.old tokens.new (text_tokens name.now hex_name.now bytes.now) }
{
    match utf8(bytes) {
        Some(text) => tokens.put_text(name, text),
        None => tokens.put_hex(hex_name, bytes),
    }
}

/// Writes the payload of a Query.
fn put_query(tokens: &mut Tokens, query: &Query<'_>)
    ensures { Puts tokens.old tokens.new (tokens_of (query_data (query_fields query.now))) }
{
    tokens.begin_object();
    tokens.put_number("minimum_speed", u32::from(query.speed));
    tokens.put_hex("tail_hex", query.tail);
    put_words(tokens, "text", "text_hex", query.text);
    tokens.end_object();
}

/// Writes one result of a Query Hit.
fn put_result(tokens: &mut Tokens, found: &HitResult<'_>)
    ensures { Puts tokens.old tokens.new (tokens_of (result_data (result_fields found.now))) }
{
    tokens.begin_object();
    tokens.put_hex("extra_hex", found.extra);
    tokens.put_number("index", found.file);
    put_words(tokens, "name", "name_hex", found.name);
    tokens.put_number("size", found.size);
    tokens.end_object();
}

/// Writes the results of a Query Hit, in order.
fn put_results(tokens: &mut Tokens, hit: &Hit<'_>)
    ensures { Puts tokens.old tokens.new (tokens_of (array (items_of (map result_data hit.now.results)))) }
{
    tokens.begin_array();
    for found in hit.results() {
        put_result(tokens, &found);
    }
    tokens.end_array();
}

/// Writes the payload of a Query Hit.
fn put_hit(tokens: &mut Tokens, hit: &Hit<'_>)
    ensures { Puts tokens.old tokens.new (tokens_of (hit_data hit.now)) }
{
    tokens.begin_object();
    tokens.put_ip("ip", hit.ip());
    tokens.put_number("port", u32::from(hit.port()));
    tokens.put_name("results");
    put_results(tokens, hit);
    tokens.put_hex("servent", &hit.servent().0);
    tokens.put_number("speed", hit.speed());
    tokens.put_hex("trailer_hex", hit.trailer());
    tokens.end_object();
}

/// Writes the bytes of a payload without a reading.
fn put_unread(tokens: &mut Tokens, payload: &[u8])
    ensures { Puts tokens.old tokens.new (tokens_of (unread_data payload.now)) }
{
    tokens.begin_object();
    tokens.put_hex("unread_hex", payload);
    tokens.end_object();
}

/// Writes an empty payload.
fn put_empty(tokens: &mut Tokens)
    ensures { Puts tokens.old tokens.new (tokens_of (object no_members)) }
{
    tokens.begin_object();
    tokens.end_object();
}

/// Writes what a payload says: of a Ping an object of nothing.
fn put_read(tokens: &mut Tokens, read: &Payload<'_>)
    ensures { Puts tokens.old tokens.new (tokens_of (read_data (payload_seen read.now))) }
{
    match read {
        Payload::Ping => put_empty(tokens),
        Payload::Pong(pong) => put_pong(tokens, pong),
        Payload::Push(push) => put_push(tokens, push),
        Payload::Query(query) => put_query(tokens, query),
        Payload::Hit(hit) => put_hit(tokens, hit),
    }
}

/// Writes the payload of a descriptor of this kind: what its fields say, or its bytes where it has no reading.
pub(crate) fn put_payload(tokens: &mut Tokens, kind: Kind, payload: &[u8])
    ensures { Puts tokens.old tokens.new (tokens_of (payload_data payload.now (reading kind payload.now))) }
{
    match read_payload(kind, payload) {
        Some(read) => put_read(tokens, &read),
        None => put_unread(tokens, payload),
    }
}
