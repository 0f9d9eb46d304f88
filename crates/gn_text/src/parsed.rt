//! The lines of a text that aren't skipped.

ghost use Rattle.std.specs.Prelude.{◌≡◌, ◌∷◌, [], MatchResult};
ghost use Rattle.gn_text.specs.Parsed.{line_seen, numbered_text};

use crate::line::{first_line, is_skipped};
use std::marker::Model;

/// A line that isn't skipped, with its number. Lines count from 1, with the skipped ones.
pub type NumberedLine<'a> = (u64, &'a [u8]);

/// The lines of a text that say something, one after another. They are found as they are asked for, and nothing is kept
/// of those that were given.
#[derive(Drop)]
pub struct NumberedLines<'a> {
    /// What of the text is left.
    text: &'a [u8],
    /// The number of the line that it begins with.
    number: u64,
}

impl<'a> Model for NumberedLines<'a> {
    ghost use Rattle.std.specs.Prelude.{◌+◌, ◌<◌, ◌^◌, length};
    ghost use Rattle.gn_text.specs.Parsed.{Numbered, numbered_text};

    ghost Value = { Numbered };

    ghost view = { λ l. numbered_text l.number l.text.now };

    ghost invariant = { λ l. l.number + length l.text.now < 2 ^ 64 };
}

impl<'a> NumberedLines<'a> {
    /// Those of a whole text.
    pub fn of(text: &'a [u8]) -> Self
        ensures { result ≡ numbered_text 1 text.now }
    {
        NumberedLines { text, number: 1 }
    }

    /// The same lines, to be gone over without these.
    pub fn copy(&self) -> Self
        ensures { result ≡ self.now }
    {
        NumberedLines {
            text: self.text,
            number: self.number,
        }
    }

    /// The first of them, which is then gone. An `Err` is the number of the line after the last one: there is none.
    #[tactic(auto, using(crate::proofs::ParsedLemmas::line_skipped, crate::proofs::ParsedLemmas::line_parsed, crate::proofs::ParsedLemmas::after_line, crate::proofs::ParsedLemmas::none_left, crate::proofs::ParsedLemmas::after_all))]
    pub fn next_line(&mut self) -> Result<NumberedLine<'a>, u64>
        ensures first { MatchResult result (λ line. self.old.lines ≡ line_seen line ∷ self.new.lines)
            (λ after. (self.old.lines ≡ []) × (self.old.after ≡ after)) }
        ensures after { self.new.after ≡ self.old.after }
    {
        while let Some((line, rest)) = first_line(self.text) {
            let number = self.number;
            self.text = rest;
            self.number += 1;
            if !is_skipped(line) {
                return Ok((number, line));
            }
        }
        Err(self.number)
    }
}
