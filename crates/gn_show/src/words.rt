//! A line in plain words that is written piece by piece.

ghost use Rattle.std.specs.Prelude.{◌≡◌, [], decimal, false, length, replicate, true, IfOk, OnErr, OnOk};
ghost use Rattle.hex.specs.Hex.{encode_lower};
ghost use Rattle.gn_text.specs.Addresses.{ip_text};
ghost use Rattle.gn_show.specs.Pieces.{Puts};

use gn_text::{push_hex, push_ip, push_number};
use std::alloc::{AllocError, Global};
use std::marker::Model;

/// The bytes that a line is begun with.
const ROOM: usize = 256;

/// A line, as far as it is written, and whether memory ran out on the way: who writes it asks once, at its end.
#[derive(Drop)]
pub(crate) struct Words {
    text: Vec<u8>,
    ran_out: bool,
}

impl Model for Words {
    ghost use Rattle.std.specs.Prelude.{ℕ};
    ghost use Rattle.gn_show.specs.Pieces.{Written};

    ghost Value = { Written ℕ };

    ghost view = { λ w. record { pieces = w.text.items; ran_out = w.ran_out } };
}

impl Words {
    /// Nothing is written yet.
    pub(crate) fn new(alloc: Global) -> Result<Self, AllocError>
        ensures { IfOk result (λ words. words ≡ record { pieces = []; ran_out = false }) }
    {
        Ok(Words {
            text: Vec::with_capacity(alloc, ROOM)?,
            ran_out: false,
        })
    }

    /// The text of what is written. An `Err` says that memory ran out.
    pub(crate) fn into_text(self) -> Result<Vec<u8>, AllocError>
        ensures { IfOk result (λ text. (self.ran_out ≡ false) × (text.items ≡ self.pieces)) }
    {
        let Words { text, ran_out } = self;
        if ran_out { Err(AllocError) } else { Ok(text) }
    }

    /// How many bytes are written.
    pub(crate) fn len(&self) -> usize
        ensures { result ≡ length self.now.pieces }
    {
        self.text.len()
    }

    /// What makes memory.
    pub(crate) fn alloc(&self) -> Global {
        *self.text.allocator()
    }

    /// Memory ran out.
    pub(crate) fn run_out(&mut self)
        ensures { self.new.ran_out ≡ true }
    {
        self.ran_out = true;
    }

    /// Notes whether memory ran out.
    fn note(&mut self, put: Result<(), AllocError>)
        ensures ok { OnOk put (self.new ≡ self.old) }
        ensures err { OnErr put (self.new.ran_out ≡ true) }
    {
        if put.is_err() {
            self.ran_out = true;
        }
    }

    /// Appends words.
    pub(crate) fn put(&mut self, words: &[u8])
        ensures { Puts self.old self.new words.now }
    {
        let put = self.text.extend_from_slice(words);
        self.note(put);
    }

    /// Appends a number in decimal digits.
    pub(crate) fn put_number(&mut self, number: u32)
        ensures { Puts self.old self.new (decimal number) }
    {
        let put = push_number(&mut self.text, number);
        self.note(put);
    }

    /// Appends bytes in hex digits.
    pub(crate) fn put_hex(&mut self, bytes: &[u8])
        ensures { Puts self.old self.new (encode_lower bytes.now) }
    {
        let put = push_hex(&mut self.text, bytes);
        self.note(put);
    }

    /// Appends an address in dotted decimal.
    pub(crate) fn put_ip(&mut self, ip: [u8; 4])
        ensures { Puts self.old self.new (ip_text ip) }
    {
        let put = push_ip(&mut self.text, ip);
        self.note(put);
    }

    /// Appends so many spaces.
    pub(crate) fn put_spaces(&mut self, count: usize)
        ensures { Puts self.old self.new (replicate count 32) }
    {
        match self.text.len().checked_add(count) {
            Some(end) => {
                let put = self.text.resize(end, b' ');
                self.note(put);
            }
            None => self.ran_out = true,
        }
    }
}
