//! Descriptors and sends as JSON.

ghost use Rattle.gn_show.specs.Pieces.{Puts};
ghost use Rattle.gn_show.specs.Tokens.{sending_tokens, tokens_of};
ghost use Rattle.gn_show.specs.Values.{descriptor_data, sends_data};

use crate::payload_json::put_payload;
use crate::tokens::Tokens;
use gn_numbers::kind_names;
use gn_rules::Sending;
use gn_wire::Descriptor;

/// Writes a descriptor, its payload read.
pub(crate) fn put_descriptor(tokens: &mut Tokens, descriptor: &Descriptor)
    ensures { Puts tokens.old tokens.new (tokens_of (descriptor_data descriptor.now)) }
{
    let kind = descriptor.kind();
    tokens.begin_object();
    tokens.put_number("code", u32::from(kind.code()));
    tokens.put_number("hops", u32::from(descriptor.hops()));
    tokens.put_hex("id", &descriptor.id().0);
    tokens.put_text("kind", kind_names(kind).json);
    tokens.put_name("payload");
    put_payload(tokens, kind, descriptor.payload().as_slice());
    tokens.put_number("ttl", u32::from(descriptor.ttl()));
    tokens.end_object();
}

/// Writes a send, with its descriptor.
fn put_sending(tokens: &mut Tokens, sending: &Sending)
    ensures { Puts tokens.old tokens.new (sending_tokens sending.now) }
{
    tokens.begin_object();
    tokens.put_number("connection", sending.to);
    tokens.put_name("descriptor");
    put_descriptor(tokens, &sending.packet);
    tokens.put_flag("queued", sending.queued);
    tokens.end_object();
}

/// Writes sends, in order.
pub(crate) fn put_sends(tokens: &mut Tokens, sends: &[Sending])
    ensures { Puts tokens.old tokens.new (tokens_of (sends_data sends.now)) }
{
    tokens.begin_array();
    for sending in sends {
        put_sending(tokens, sending);
    }
    tokens.end_array();
}
