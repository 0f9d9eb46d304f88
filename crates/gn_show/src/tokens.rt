//! A value in JSON that is written token by token.

ghost use Rattle.std.specs.Prelude.{◌≡◌, ◌∷◌, [], false, true, IfOk, OnErr, OnOk};
ghost use Rattle.json.specs.Print.{print};
ghost use Rattle.json.specs.Token.{begin_array, begin_object, end_array, end_object, key};
ghost use Rattle.serde_json.specs.Data.{boolean, string};
ghost use Rattle.gn_show.specs.Pieces.{Puts};
ghost use Rattle.gn_show.specs.Tokens.{member_tokens};
ghost use Rattle.gn_show.specs.Values.{hex_data, ip_data, number_data};

use crate::text::dotted;
use json::Writer;
use std::alloc::{AllocError, Global};
use std::marker::Model;

/// A value, as far as it is written, and whether memory ran out on the way: who writes it asks once, at its end.
#[derive(Drop)]
pub(crate) struct Tokens {
    alloc: Global,
    out: Writer,
    ran_out: bool,
}

impl Model for Tokens {
    ghost use Rattle.std.specs.Prelude.{◌≡◌, []};
    ghost use Rattle.json.specs.Token.{Token, tokens_code};
    ghost use Rattle.gn_show.specs.Pieces.{Written, written_code};

    ghost Value = { Written Token };

    ghost coded = { written_code tokens_code };

    ghost view = { λ t. record { pieces = t.out.tokens; ran_out = t.ran_out } };

    ghost invariant = { λ t. t.out.before ≡ [] };
}

impl Tokens {
    /// Nothing is written yet. The value is written in the place of this text.
    pub(crate) fn over(alloc: Global, text: Vec<u8>) -> Self
        ensures { result ≡ record { pieces = []; ran_out = false } }
    {
        let mut text = text;
        text.clear();
        Tokens {
            alloc,
            out: Writer::new(text),
            ran_out: false,
        }
    }

    /// The text of what is written. An `Err` says that memory ran out.
    pub(crate) fn into_text(self) -> Result<Vec<u8>, AllocError>
        ensures { IfOk result (λ text. (self.ran_out ≡ false) × (text.items ≡ print self.pieces)) }
    {
        let Tokens {
            alloc: _,
            out,
            ran_out,
        } = self;
        let text = out.into_inner();
        if ran_out { Err(AllocError) } else { Ok(text) }
    }

    /// Notes whether memory ran out.
    fn note(&mut self, put: Result<(), AllocError>)
        ensures ok { OnOk put (self.new ≡ self.old) }
        ensures err { OnErr put (self.new.ran_out ≡ true) }
    {
        if put.is_err() {
            self.ran_out = true;
        }
    }

    /// Begins an object.
    pub(crate) fn begin_object(&mut self)
        ensures { Puts self.old self.new (begin_object ∷ []) }
    {
        let put = self.out.begin_object();
        self.note(put);
    }

    /// Ends an object.
    pub(crate) fn end_object(&mut self)
        ensures { Puts self.old self.new (end_object ∷ []) }
    {
        let put = self.out.end_object();
        self.note(put);
    }

    /// Begins an array.
    pub(crate) fn begin_array(&mut self)
        ensures { Puts self.old self.new (begin_array ∷ []) }
    {
        let put = self.out.begin_array();
        self.note(put);
    }

    /// Ends an array.
    pub(crate) fn end_array(&mut self)
        ensures { Puts self.old self.new (end_array ∷ []) }
    {
        let put = self.out.end_array();
        self.note(put);
    }

    /// Writes the name of a member, whose value comes next.
    pub(crate) fn put_name(&mut self, name: &str)
        ensures { Puts self.old self.new (key name.now ∷ []) }
    {
        let put = self.out.key(name);
        self.note(put);
    }

    /// Writes a number under its name.
    pub(crate) fn put_number(&mut self, name: &str, number: u32)
        ensures { Puts self.old self.new (member_tokens name.now (number_data number)) }
    {
        self.put_name(name);
        let put = self.out.u64(u64::from(number));
        self.note(put);
    }

    /// Writes under its name whether something is so.
    pub(crate) fn put_flag(&mut self, name: &str, flag: bool)
        ensures { Puts self.old self.new (member_tokens name.now (boolean flag)) }
    {
        self.put_name(name);
        let put = self.out.boolean(flag);
        self.note(put);
    }

    /// Writes a text under its name.
    pub(crate) fn put_text(&mut self, name: &str, text: &str)
        ensures { Puts self.old self.new (member_tokens name.now (string text.now)) }
    {
        self.put_name(name);
        let put = self.out.string(text);
        self.note(put);
    }

    /// Writes bytes under their name, as hex digits.
    pub(crate) fn put_hex(&mut self, name: &str, bytes: &[u8])
        ensures { Puts self.old self.new (member_tokens name.now (hex_data bytes.now)) }
    {
        match hex::encode(self.alloc, bytes) {
            Ok(digits) => self.put_text(name, digits.as_str()),
            Err(_) => self.ran_out = true,
        }
    }

    /// Writes an address under its name, in dotted decimal.
    pub(crate) fn put_ip(&mut self, name: &str, ip: [u8; 4])
        ensures { Puts self.old self.new (member_tokens name.now (ip_data ip)) }
    {
        match dotted(self.alloc, ip) {
            Ok(text) => self.put_text(name, text.as_str()),
            Err(_) => self.ran_out = true,
        }
    }
}
