//! A piece of an input, as far as it wasn't gone over, and the line that was found in it.

ghost use Rattle.std.specs.Prelude.{◌≡◌, ◌≢◌, ◌<◌, ◌++◌, ◌∷◌, [], All, false, length, true, IfErr, IfOk, OnErr, OnOk};
ghost use Rattle.std.specs.Io.KnownBytes.{IsAtEnd};
ghost use Rattle.gn_io.specs.declared.input.InputFault.TheVariants.{NoMemory};
ghost use Rattle.gn_stream.specs.Pieces.{untouched};
ghost use Rattle.gn_stream.specs.Reading.{Gives, HasGiven, IsPieceFault};

use gn_io::{InputFault, Source};
use memchr::memchr;
use std::alloc::Allocator;
use std::marker::Model;

/// The most bytes that are read at once.
const PIECE: usize = 16_384;

/// Makes room for a piece, where there is none.
fn make_room<A: Allocator>(bytes: &mut Vec<u8, A>) -> Result<(), InputFault>
    ensures room { OnOk result (0 < length bytes.new.items) }
    ensures fault { IfErr result (λ fault. fault ≡ NoMemory) }
{
    if bytes.is_empty() && bytes.resize(PIECE, 0).is_err() {
        return Err(InputFault::NoMemory);
    }
    Ok(())
}

/// What was read last: it is seen as the line that was found in it, and what of it wasn't gone over yet.
#[derive(Drop)]
pub(crate) struct Piece<A: Allocator> {
    /// Room for a piece, once one was read.
    bytes: Vec<u8, A>,
    /// Where the line begins, and where it ends.
    from: usize,
    to: usize,
    /// Where what wasn't gone over begins, and where it ends.
    at: usize,
    end: usize,
}

impl<A: Allocator> Model for Piece<A> {
    ghost use Rattle.std.specs.Prelude.{slice_range};
    ghost use Rattle.gn_stream.specs.Pieces.{IsRange, Pieced};

    ghost Value = { Pieced };

    ghost view = { λ p. record { line = slice_range p.bytes.items p.from p.to; held = slice_range p.bytes.items p.at p.end } };

    ghost invariant = { λ p. IsRange p.from p.to p.bytes.items × IsRange p.at p.end p.bytes.items };
}

impl<A: Allocator> Piece<A> {
    /// Nothing was read yet.
    pub(crate) fn new(alloc: A) -> Self
        ensures { result ≡ untouched }
    {
        Piece {
            bytes: Vec::new(alloc),
            from: 0,
            to: 0,
            at: 0,
            end: 0,
        }
    }

    /// Whether all of it was gone over.
    pub(crate) fn is_empty(&self) -> bool
        ensures empty { result ≡ true → self.now.held ≡ [] }
        ensures some { result ≡ false → 0 < length self.now.held }
    {
        self.at == self.end
    }

    /// The line that was found in it.
    pub(crate) fn line(&self) -> &[u8]
        ensures { result.now ≡ self.now.line }
    {
        &self.bytes[self.from..self.to]
    }

    /// All that is left of it.
    fn left(&self) -> &[u8]
        ensures { result.now ≡ self.now.held }
    {
        &self.bytes[self.at..self.end]
    }

    /// Whether a line feed stands in what is left of it.
    pub(crate) fn has_line(&self) -> bool
        ensures none { result ≡ false → All (λ b. b ≢ 10) self.now.held }
        ensures some { result ≡ true → All (λ b. b ≢ 10) self.now.held → ⊥ }
    {
        match memchr(b'\n', self.left()) {
            Some(_) => true,
            None => false,
        }
    }

    /// Goes over what is left of it up to the first line feed, and over this, or over all that is left; what stands before the line
    /// feed is the line that was found. Whether one stands there.
    pub(crate) fn take_line(&mut self) -> bool
        ensures free { All (λ b. b ≢ 10) self.new.line }
        ensures ended { result ≡ true → self.old.held ≡ self.new.line ++ 10 ∷ self.new.held }
        ensures all { result ≡ false → (self.new.held ≡ []) × (self.new.line ≡ self.old.held) }
    {
        let feed = memchr(b'\n', self.left());
        self.from = self.at;
        match feed {
            Some(count) => {
                self.to = self.at + count;
                self.at = self.to + 1;
                true
            }
            None => {
                self.to = self.end;
                self.at = self.end;
                false
            }
        }
    }

    /// Reads another piece of a source, once all is gone over. False at the end.
    pub(crate) fn refill<S: Source>(&mut self, source: &mut S) -> Result<bool, InputFault>
        requires { self.old.held ≡ [] }
        ensures given { OnOk result (HasGiven (S.state source.old) (S.state source.new) self.new.held) }
        ensures more { IfOk result (λ more. more ≡ true → 0 < length self.new.held) }
        ensures end { IfOk result (λ more. more ≡ false → (self.new.held ≡ []) × IsAtEnd (S.state source.new).rest) }
        ensures fault { IfErr result (λ fault. IsPieceFault fault (S.state source.old) (S.state source.new)) }
        ensures goes { OnErr result (Gives (S.state source.old) (S.state source.new) []) }
    {
        self.from = 0;
        self.to = 0;
        self.at = 0;
        self.end = 0;
        make_room(&mut self.bytes)?;
        let Ok(count) = source.read(&mut self.bytes) else {
            return Err(InputFault::Read);
        };
        self.end = count;
        Ok(count != 0)
    }
}
