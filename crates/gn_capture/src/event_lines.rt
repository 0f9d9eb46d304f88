//! The lines that make links, give them bytes, and name a ticket, all of them, or a connection.

ghost use Rattle.std.specs.Prelude.{◌≡◌, map};
ghost use Rattle.gn_capture.specs.Outcomes.{IsLineRead};
ghost use Rattle.gn_capture.specs.CaptureLines.{alone_of, data_of, is_route_all, link_of, number_alone};

use crate::line::{Line, PieceBytes};
use crate::refusal::LineRefusal;
use gn_rules::MOST_LINKS;
use gn_text::{Cause, hex_bytes, is_word, number};
use std::alloc::Allocator;

/// A line that takes no fields.
pub(crate) fn alone<T: Drop>(line: T, fields: &[&[u8]]) -> Result<T, LineRefusal>
    ensures { IsLineRead result (alone_of line (map (λ x. x.now) fields.now)) }
{
    match fields {
        [] => Ok(line),
        _ => Err(LineRefusal::Fault(Cause::Fields)),
    }
}

/// A line that makes a link, where so many are made before it.
pub(crate) fn link_line<T: Drop>(line: T, links: u64, fields: &[&[u8]]) -> Result<T, LineRefusal>
    ensures { IsLineRead result (link_of line links (map (λ x. x.now) fields.now)) }
{
    match fields {
        [] if links == MOST_LINKS as u64 => Err(LineRefusal::Fault(Cause::Link)),
        [] => Ok(line),
        _ => Err(LineRefusal::Fault(Cause::Fields)),
    }
}

/// The number of a line that takes one.
pub(crate) fn number_alone(fields: &[&[u8]]) -> Result<u32, LineRefusal>
    ensures { IsLineRead result (number_alone (map (λ x. x.now) fields.now)) }
{
    match fields {
        [field] => number(field).ok_or(LineRefusal::Fault(Cause::Field)),
        _ => Err(LineRefusal::Fault(Cause::Fields)),
    }
}

/// Whether the fields are those of the line `route all`.
pub(crate) fn is_route_all(fields: &[&[u8]]) -> bool
    ensures { result ≡ is_route_all (map (λ x. x.now) fields.now) }
{
    match fields {
        [word, which] => is_word(word, b"route") && is_word(which, b"all"),
        _ => false,
    }
}

/// The piece of a `data` line, where so many links are made before it.
pub(crate) fn data_line<A: Allocator + Copy>(
    alloc: A,
    links: u64,
    fields: &[&[u8]],
) -> Result<Line<A>, LineRefusal>
    ensures { IsLineRead result (data_of links (map (λ x. x.now) fields.now)) }
{
    match fields {
        [link, hex] => {
            let Some(link) = number(link) else {
                return Err(LineRefusal::Fault(Cause::Field));
            };
            let Some(bytes) = hex_bytes(alloc, hex)? else {
                return Err(LineRefusal::Fault(Cause::Field));
            };
            if link < 1 || u64::from(link) > links {
                return Err(LineRefusal::Fault(Cause::Link));
            }
            let bytes = PieceBytes::of(alloc, bytes)?;
            Ok(Line::Piece { link, bytes })
        }
        _ => Err(LineRefusal::Fault(Cause::Fields)),
    }
}
