//! A text in lines, and a line in fields.

ghost use Rattle.std.specs.Prelude.{◌≡◌, ◌≢◌, ◌==◌, ◌<◌, ◌≤◌, ◌++◌, ◌∷◌, [], All, length, map, take, IfNone, IfOk, IfSome, OnErr, OnOk};
ghost use Rattle.std.specs.List.{slice_split};
ghost use Rattle.memchr.specs.Find.{IsFirstByte, is_byte};
ghost use Rattle.gn_text.specs.Lines.{fields_of, is_skipped, is_word, lines_of};

use memchr::memchr;
use std::alloc::{AllocError, Allocator};

/// So many bytes are looked at one by one before a text is searched, as most fields are short.
const NEAR: usize = 8;

/// Where the first mark of a text stands.
fn mark_in(text: &[u8], mark: u8) -> Option<usize>
    ensures { IsFirstByte (is_byte mark) text.now result }
{
    for i in 0..text.len().min(NEAR) {
        if text[i] == mark {
            return Some(i);
        }
    }
    if text.len() <= NEAR {
        return None;
    }
    memchr(mark, text)
}

/// What of a text stands before the first mark, and what after it, where there is one: at this place.
fn first_part(text: &[u8], mark: u8, place: Option<usize>) -> (&[u8], Option<&[u8]>)
    requires { IsFirstByte (is_byte mark) text.now place }
    ensures unmarked { All (λ b. b ≢ mark) result.0.now }
    ensures cut { IfSome result.1 (λ more. text.now ≡ result.0.now ++ mark ∷ more.now) }
    ensures last { IfNone result.1 (text.now ≡ result.0.now) }
{
    match place {
        Some(at) => (&text[..at], Some(&text[at + 1..])),
        None => (text, None),
    }
}

/// Adds the parts of a text between the marks. An `Err` is out of memory, and may leave some of them.
fn add_parts<'a, A: Allocator>(
    text: &'a [u8],
    mark: u8,
    parts: &mut Vec<&'a [u8], A>,
) -> Result<(), AllocError>
    ensures ok { OnOk result (map (λ x. x.now) parts.new.items
        ≡ map (λ x. x.now) parts.old.items ++ slice_split (λ b. b == mark) text.now) }
    ensures err { OnErr result (take (length parts.old.items) parts.new.items ≡ parts.old.items) }
{
    let mut rest = Some(text);
    while let Some(text) = rest {
        let (part, more) = first_part(text, mark, mark_in(text, mark));
        parts.push(part)?;
        rest = more;
    }
    Ok(())
}

/// The parts of a text between the marks. An `Err` is out of memory.
pub(crate) fn parts<A: Allocator + Copy>(
    alloc: A,
    text: &[u8],
    mark: u8,
) -> Result<Vec<&[u8], A>, AllocError>
    ensures { IfOk result (λ v. map (λ x. x.now) v.items ≡ slice_split (λ b. b == mark) text.now) }
{
    let mut parts = Vec::new(alloc);
    add_parts(text, mark, &mut parts)?;
    Ok(parts)
}

/// The fields of a line: what single spaces separate, so that a doubled one has an empty field in it. An `Err` is out
/// of memory.
pub fn fields<A: Allocator + Copy>(alloc: A, line: &[u8]) -> Result<Vec<&[u8], A>, AllocError>
    ensures { IfOk result (λ v. map (λ x. x.now) v.items ≡ fields_of line.now) }
{
    parts(alloc, line, b' ')
}

/// Adds the fields of a line to those that are there. An `Err` is out of memory, and changes nothing.
pub fn fields_into<'a, A: Allocator>(
    line: &'a [u8],
    fields: &mut Vec<&'a [u8], A>,
) -> Result<(), AllocError>
    ensures ok { OnOk result (map (λ x. x.now) fields.new.items
        ≡ map (λ x. x.now) fields.old.items ++ fields_of line.now) }
    ensures err { OnErr result (fields.new.items ≡ fields.old.items) }
{
    let before = fields.len();
    let added = add_parts(line, b' ', fields);
    if added.is_err() {
        fields.truncate(before);
    }
    added
}

/// Puts the fields of a line into places, the first of them into the first, and gives their number. `None` where there are too few
/// places, and then some of the fields may stand there.
pub fn fields_in<'a>(line: &'a [u8], places: &mut [&'a [u8]]) -> Option<usize>
    ensures bound { IfSome result (λ count. count ≤ length places.new) }
    ensures fields { IfSome result (λ count. map (λ x. x.now) (take count places.new) ≡ fields_of line.now) }
{
    let mut count = 0;
    let mut rest = Some(line);
    while let Some(text) = rest {
        if count == places.len() {
            return None;
        }
        let (part, more) = first_part(text, b' ', mark_in(text, b' '));
        places[count] = part;
        count += 1;
        rest = more;
    }
    Some(count)
}

/// The first line of a text, and the text after its line feed, which may be missing. An empty text has none.
pub fn first_line(text: &[u8]) -> Option<(&[u8], &[u8])>
    ensures line { IfSome result (λ cut. lines_of text.now ≡ cut.0.now ∷ lines_of cut.1.now) }
    ensures less { IfSome result (λ cut. length cut.1.now < length text.now) }
    ensures none { IfNone result (lines_of text.now ≡ []) }
{
    if text.is_empty() {
        return None;
    }
    let (line, more) = first_part(text, b'\n', memchr(b'\n', text));
    match more {
        Some(more) => Some((line, more)),
        None => Some((line, &[])),
    }
}

/// Whether a line is skipped, as empty ones and comments are.
pub fn is_skipped(line: &[u8]) -> bool
    ensures { result ≡ is_skipped line.now }
{
    match line {
        [] => true,
        [b, ..] => *b == b'#',
    }
}

/// Whether a field is this word, in the case that it is written in.
pub fn is_word(field: &[u8], word: &[u8]) -> bool
    ensures { result ≡ is_word field.now word.now }
{
    field == word
}
