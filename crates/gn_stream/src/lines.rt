//! The lines of an input that is never whole in memory.

ghost use Rattle.std.specs.Prelude.{◌≡◌, ◌≢◌, ◌≤◌, ◌<◌, ◌+◌, ◌++◌, ◌∷◌, [], All, false, length, true, IfErr, IfOk, IfNone, IfSome, OnErr, OnOk};
ghost use Rattle.gn_stream.specs.Left.{line_limit};
ghost use Rattle.gn_capture.specs.Histories.{ending};
ghost use Rattle.gn_stream.specs.Pieces.{line_at};
ghost use Rattle.gn_stream.specs.Reading.{Gives, Goes, IsPieceFault, fresh, fresh_cut, place};
ghost use Rattle.gn_stream.specs.Lines.{IsCounted, IsLastFault, IsLastOf, IsLineRead, IsOver, TakesOn};
ghost use Rattle.gn_stream.specs.Unfinished.{ending_after, is_added};
ghost use Rattle.gn_stream.specs.declared.ending.Ending.TheVariants.{Added, Due};
ghost use Rattle.gn_io.specs.declared.input.InputFault.TheVariants.{NoMemory, TooLarge};

use crate::ending::Ending;
use crate::piece::Piece;
use gn_io::{InputFault, Source};
use std::alloc::{Allocator, Global};
use std::marker::Model;

/// The most bytes of a line.
const LINE_LIMIT: usize = 67_108_864;

/// Reads the lines of a source, one after another. No more is held than a piece of the source, at most 16,384 bytes, and
/// the line that was given last. One reader is for one source.
pub struct LineReader<A: Allocator = Global> {
    piece: Piece<A>,
    /// Whether the source has no more.
    is_ended: bool,
    /// The number of the next line.
    next: u64,
    /// Whether the line that was given last is copied. It stands in the piece else.
    is_copied: bool,
    copied: Vec<u8, A>,
    ending: Ending,
}

impl<A: Allocator> Drop for LineReader<A> {
    fn drop(self) {
        let LineReader {
            piece: _,
            is_ended: _,
            next: _,
            is_copied: _,
            copied: _,
            ending: _,
        } = self;
    }
}

impl<A: Allocator> Model for LineReader<A> {
    ghost use Rattle.gn_stream.specs.Pieces.{line_at};
    ghost use Rattle.gn_stream.specs.Reading.{Reading};

    ghost Value = { Reading };

    ghost view = { λ r. record {
      held = r.piece.held;
      is_ended = r.is_ended;
      next = r.next;
      line = line_at r.is_copied r.copied.items r.piece.line;
      ending = r.ending;
    } };
}

impl<A: Allocator + Copy> LineReader<A> {
    /// A reader of a source's first line, whose lines end so.
    fn ended_by(alloc: A, ending: Ending) -> Self
        ensures { result ≡ record fresh { ending = ending } }
    {
        LineReader {
            piece: Piece::new(alloc),
            is_ended: false,
            next: 1,
            is_copied: false,
            copied: Vec::new(alloc),
            ending,
        }
    }

    /// A reader of a source's first line.
    pub fn new(alloc: A) -> Self
        ensures { result ≡ fresh }
    {
        LineReader::ended_by(alloc, Ending::Own)
    }

    /// A reader of the first line of a history that may have been cut: what stands after the last line feed is left out, and after
    /// the whole lines `end` is given, where none of them is that.
    pub fn of_cut(alloc: A) -> Self
        ensures { result ≡ fresh_cut }
    {
        LineReader::ended_by(alloc, Ending::Due)
    }
}

/// Puts the line that was found in a piece in place of what was copied, unless the line is copied already.
fn keep_line<A: Allocator>(
    copied: &mut Vec<u8, A>,
    is_copied: bool,
    found: &[u8],
) -> Result<(), InputFault>
    ensures copied { OnOk result (copied.new.items ≡ line_at is_copied copied.old.items found.now) }
    ensures fault { IfErr result (λ fault. fault ≡ NoMemory) }
{
    if is_copied {
        return Ok(());
    }
    copied.clear();
    if copied.extend_from_slice(found).is_err() {
        return Err(InputFault::NoMemory);
    }
    Ok(())
}

impl<A: Allocator> LineReader<A> {
    /// The line that was given last.
    pub fn line(&self) -> &[u8]
        ensures { result.now ≡ self.now.line }
    {
        if self.is_copied {
            &self.copied
        } else {
            self.piece.line()
        }
    }

    /// The number of the next line. Lines count from 1.
    pub fn next(&self) -> u64
        ensures { result ≡ self.now.next }
    {
        self.next
    }

    /// Whether the next line is read already, with its line feed, so that the source isn't asked for it.
    pub fn has_line(&self) -> bool
        ensures none { result ≡ false → All (λ b. b ≢ 10) self.now.held }
        ensures some { result ≡ true → All (λ b. b ≢ 10) self.now.held → ⊥ }
    {
        self.piece.has_line()
    }

    /// Whether `end` was given that doesn't stand in the text.
    pub fn has_added_end(&self) -> bool
        ensures { result ≡ is_added self.now.ending }
    {
        match self.ending {
            Ending::Added => true,
            Ending::Own | Ending::Due | Ending::Stands => false,
        }
    }

    /// Whether the line isn't longer than a line may be.
    fn is_short(&self) -> bool
        ensures short { result ≡ true → length self.now.line ≤ line_limit }
        ensures over { result ≡ false → line_limit < length self.now.line }
    {
        self.line().len() <= LINE_LIMIT
    }

    /// Empties the line.
    fn clear_line(&mut self)
        ensures { self.new ≡ record self.old { line = [] } }
    {
        self.copied.clear();
        self.is_copied = true;
    }

    /// Reads on where all that was read is gone over. False where the source has no more.
    fn fill<S: Source>(&mut self, source: &mut S) -> Result<bool, InputFault>
        ensures filled { OnOk result (TakesOn [] (place (S.state source.old) self.old)
            (place (S.state source.new) self.new)) }
        ensures line { OnOk result (self.new.line ≡ self.old.line) }
        ensures more { IfOk result (λ more. more ≡ true → 0 < length self.new.held) }
        ensures end { IfOk result (λ more. more ≡ false → (self.new.held ≡ []) × (self.new.is_ended ≡ true)) }
        ensures fault { IfErr result (λ fault. IsPieceFault fault (S.state source.old) (S.state source.new)) }
        ensures goes { OnErr result (Gives (S.state source.old) (S.state source.new) []) }
        ensures begun { OnErr result ((self.old.is_ended ≡ false) × (self.new.is_ended ≡ false)) }
    {
        if !self.piece.is_empty() {
            return Ok(true);
        }
        if self.is_ended {
            return Ok(false);
        }
        keep_line(&mut self.copied, self.is_copied, self.piece.line())?;
        self.is_copied = true;
        let is_filled = self.piece.refill(source)?;
        self.is_ended = !is_filled;
        Ok(is_filled)
    }

    /// Adds what is held to the line, up to its end, where that is held; then it is true. A first part is the line where it stands,
    /// and others are copied behind it.
    fn take_part(&mut self) -> Result<bool, InputFault>
        requires { 0 < length self.old.held }
        ensures ended { IfOk result (λ ended. ended ≡ true → (part : _) × (self.old.held ≡ part ++ 10 ∷ self.new.held)
            × All (λ b. b ≢ 10) part × (self.new.line ≡ self.old.line ++ part)) }
        ensures all { IfOk result (λ ended. ended ≡ false → (self.new.held ≡ []) × All (λ b. b ≢ 10) self.old.held
            × (self.new.line ≡ self.old.line ++ self.old.held)) }
        ensures kept { OnOk result ((self.new.is_ended ≡ self.old.is_ended) × (self.new.next ≡ self.old.next)
            × (self.new.ending ≡ self.old.ending)) }
        ensures fault { IfErr result (λ fault. fault ≡ NoMemory) }
        ensures still { OnErr result (self.new.is_ended ≡ self.old.is_ended) }
    {
        if self.line().is_empty() {
            self.is_copied = false;
            return Ok(self.piece.take_line());
        }
        keep_line(&mut self.copied, self.is_copied, self.piece.line())?;
        self.is_copied = true;
        let is_ended = self.piece.take_line();
        if self.copied.extend_from_slice(self.piece.line()).is_err() {
            return Err(InputFault::NoMemory);
        }
        Ok(is_ended)
    }

    /// Counts the line that is whole. Its number.
    fn count_line(&mut self) -> Result<u64, InputFault>
        ensures counted { IfOk result (λ number. IsCounted number self.old.line self.old self.new) }
        ensures ending { OnOk result (self.new.ending ≡ ending_after self.old.ending self.old.line) }
        ensures fault { IfErr result (λ fault. (fault ≡ TooLarge) × (self.new ≡ self.old)
            × IsOver self.old) }
    {
        if !self.is_short() {
            return Err(InputFault::TooLarge);
        }
        let number = self.next;
        match number.checked_add(1) {
            Some(next) => {
                self.next = next;
                self.ending = self.ending.after(self.line());
                Ok(number)
            }
            None => Err(InputFault::TooLarge),
        }
    }

    /// The line `end`, which the text lacks.
    fn add_end(&mut self) -> Result<u64, InputFault>
        ensures counted { IfOk result (λ number. IsCounted number ending self.old self.new) }
        ensures ending { OnOk result (self.new.ending ≡ Added) }
        ensures fault { IfErr result (λ fault. IsLastFault Due fault self.old self.new) }
        ensures still { OnErr result (self.new.is_ended ≡ self.old.is_ended) }
    {
        self.copied.clear();
        self.is_copied = true;
        if self.copied.extend_from_slice(b"end").is_err() {
            return Err(InputFault::NoMemory);
        }
        let number = self.count_line()?;
        self.ending = Ending::Added;
        Ok(number)
    }

    /// What is given of the line that no line feed ends.
    fn count_last(&mut self) -> Result<Option<u64>, InputFault>
        ensures last { IsLastOf self.old.ending result self.old self.new }
        ensures still { OnErr result (self.new.is_ended ≡ self.old.is_ended) }
    {
        match self.ending {
            Ending::Own if !self.line().is_empty() => Ok(Some(self.count_line()?)),
            Ending::Due => Ok(Some(self.add_end()?)),
            Ending::Own | Ending::Stands | Ending::Added => Ok(None),
        }
    }

    /// The number of the next line, which then is the one that was given last; or `None` after the last.
    pub(crate) fn next_line<S: Source>(&mut self, source: &mut S) -> Result<Option<u64>, InputFault>
        ensures read { IsLineRead result (place (S.state source.old) self.old) (place (S.state source.new) self.new) }
        ensures goes { OnErr result (Goes (place (S.state source.old) self.old) (place (S.state source.new) self.new)) }
    {
        self.clear_line();
        while self.is_short() {
            if !self.fill(source)? {
                return self.count_last();
            }
            if self.take_part()? {
                return Ok(Some(self.count_line()?));
            }
        }
        Err(InputFault::TooLarge)
    }
}
