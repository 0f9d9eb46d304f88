//! The steps of a history, counted as its text goes by.

ghost use Rattle.std.specs.Prelude.{◌≡◌, ◌<◌, ◌≤◌, length, take};
ghost use Rattle.gn_rules.specs.Statistics.{counter_place};
ghost use Rattle.gn_metrics.specs.Sums.{counted};
ghost use Rattle.gn_metrics.specs.declared.tally.TheConstants.{LOOKED_AT};

use crate::look::COUNTERS;
use crate::meters::Meters;
use gn_numbers::counter_named;
use gn_rules::Counter;
use memchr::{memchr, memchr2};

/// So many letters of a word are looked at: more than the name of a counter has.
const LOOKED_AT: usize = 16;

/// What comes next of a text.
#[derive(Clone, Copy)]
enum Place {
    /// The first byte of a line.
    Start,
    /// The rest of what stands before `=`.
    Event,
    /// A word behind `=`, none of which was a counter's name so far.
    Word,
    /// What is left of a line that is counted, or is a comment.
    Rest,
}

impl Place {
    ghost use Rattle.gn_metrics.specs.Counting.{behind_event, behind_start};

    /// What comes behind the first byte of a line.
    fn behind_start(byte: u8) -> Self
        ensures { result ≡ behind_start byte }
    {
        match byte {
            b'\n' => Place::Start,
            b'#' => Place::Rest,
            b'=' => Place::Word,
            _ => Place::Event,
        }
    }

    /// What comes behind a byte before `=`.
    fn behind_event(byte: u8) -> Self
        ensures { result ≡ behind_event byte }
    {
        match byte {
            b'=' => Place::Word,
            b'\n' => Place::Start,
            _ => Place::Event,
        }
    }
}

/// Counts the steps of a history as its text goes by, in whatever pieces: each line by the first word behind its `=` that is the name
/// of a counter. That is its reply, or the reason behind `dropped`.
#[derive(Drop)]
pub(crate) struct Tally {
    place: Place,
    /// The word that is read begins with so many of these letters.
    word: [u8; LOOKED_AT],
    letters: usize,
    /// How many steps had each reply or reason to drop, in the order of `Counter::ALL`.
    counts: [u32; COUNTERS],
    bytes: u64,
    ghost within: { letters ≤ LOOKED_AT },
}

impl Tally {
    ghost use Rattle.gn_metrics.specs.Counting.{after_bytes, at_first, letter_read, longer, standing, word_ended};
    ghost use Rattle.gn_metrics.specs.declared.tally.Place.TheVariants.{Event, Rest, Start, Word};

    /// Nothing has gone by.
    pub(crate) fn new() -> Self
        ensures { standing result ≡ at_first }
    {
        Tally {
            place: Place::Start,
            word: [0; LOOKED_AT],
            letters: 0,
            counts: [0; COUNTERS],
            bytes: 0,
        }
    }

    /// These bytes go by next, and what has gone by then is said.
    pub(crate) fn follow(&mut self, piece: &[u8], meters: &Meters) {
        self.read(piece);
        meters.put(&self.counts, self.bytes);
    }

    /// These bytes go by next.
    fn read(&mut self, piece: &[u8])
        ensures { standing self.new ≡ after_bytes (standing self.old) piece.now }
    {
        self.bytes = self.bytes.saturating_add(piece.len() as u64);
        let mut start = 0;
        while start < piece.len() {
            start += self.read_on(&piece[start..]);
        }
    }

    /// Reads on to where something else comes next. How many bytes that were.
    fn read_on(&mut self, text: &[u8]) -> usize
        requires { 0 < length text.now }
        ensures part { (0 < result) × (result ≤ length text.now) }
        ensures goes { standing self.new ≡ after_bytes (standing self.old) (take result text.now) }
    {
        match self.place {
            Place::Start => self.begin(text),
            Place::Event => self.skip_event(text),
            Place::Word => self.read_letter(text),
            Place::Rest => self.skip_rest(text),
        }
    }

    /// Reads the first byte of a line.
    fn begin(&mut self, text: &[u8]) -> usize
        requires some { 0 < length text.now }
        requires here { self.old.place ≡ Start }
        ensures one { result ≡ 1 }
        ensures goes { standing self.new ≡ after_bytes (standing self.old) (take 1 text.now) }
    {
        self.place = Place::behind_start(text[0]);
        1
    }

    /// Reads what stands before `=`.
    fn skip_event(&mut self, text: &[u8]) -> usize
        requires some { 0 < length text.now }
        requires here { self.old.place ≡ Event }
        ensures part { (0 < result) × (result ≤ length text.now) }
        ensures goes { standing self.new ≡ after_bytes (standing self.old) (take result text.now) }
    {
        match memchr2(b'=', b'\n', text) {
            Some(at) => {
                self.place = Place::behind_event(text[at]);
                at + 1
            }
            None => text.len(),
        }
    }

    /// Reads what is left of a line.
    fn skip_rest(&mut self, text: &[u8]) -> usize
        requires some { 0 < length text.now }
        requires here { self.old.place ≡ Rest }
        ensures part { (0 < result) × (result ≤ length text.now) }
        ensures goes { standing self.new ≡ after_bytes (standing self.old) (take result text.now) }
    {
        match memchr(b'\n', text) {
            Some(at) => {
                self.place = Place::Start;
                at + 1
            }
            None => text.len(),
        }
    }

    /// Reads a byte behind `=`.
    fn read_letter(&mut self, text: &[u8]) -> usize
        requires some { 0 < length text.now }
        requires here { self.old.place ≡ Word }
        ensures one { result ≡ 1 }
        ensures goes { standing self.new ≡ after_bytes (standing self.old) (take 1 text.now) }
    {
        self.take_letter(text[0]);
        1
    }

    /// A byte behind `=` is this one.
    fn take_letter(&mut self, byte: u8)
        ensures { standing self.new ≡ letter_read (standing self.old) byte }
    {
        match byte {
            b'\n' => {
                self.end_word();
                self.place = Place::Start;
            }
            b' ' => self.end_word(),
            _ => self.add_letter(byte),
        }
    }

    /// One more letter of a word.
    fn add_letter(&mut self, letter: u8)
        ensures { standing self.new ≡ longer (standing self.old) letter }
    {
        if self.letters < LOOKED_AT {
            self.word[self.letters] = letter;
            self.letters += 1;
        }
    }

    /// A word is at its end: where it is a counter's name, its line is counted.
    fn end_word(&mut self)
        ensures { standing self.new ≡ word_ended (standing self.old) }
    {
        let found = counter_named(&self.word[..self.letters]);
        self.letters = 0;
        if let Some(counter) = found {
            raise(&mut self.counts, counter);
            self.place = Place::Rest;
        }
    }
}

/// The place of a counter in `Counter::ALL`.
fn place_of(counter: Counter) -> usize
    ensures value { result ≡ counter_place counter }
    ensures within { result < COUNTERS }
{
    counter as usize
}

/// Counts one more of a counter, at most up to the last u32, which no history reaches.
fn raise(counts: &mut [u32; COUNTERS], counter: Counter)
    ensures { counts.new ≡ counted (counter_place counter) counts.old }
{
    let place = place_of(counter);
    counts[place] = counts[place].saturating_add(1);
}
