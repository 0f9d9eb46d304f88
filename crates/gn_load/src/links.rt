//! The links that the lines of a capture make.

ghost use Rattle.std.specs.Prelude.{◌≡◌, [], MatchResult, OnOk};
ghost use Rattle.gn_text.specs.Faults.{IsRead, IsRefused};
ghost use Rattle.gn_load.specs.Links.{given, line_taken, links_from};

use crate::link_input::LinkInput;
use gn_capture::Line;
use gn_service::{MemoryLink, Role};
use gn_text::{CaptureRefusal, Cause};
use std::alloc::{AllocError, Allocator};

/// Gives link i, counted from 1, its next bytes. A link that isn't there is given nothing.
#[tactic(auto, using(std::proofs::lemmas::List::set_past))]
fn give<A: Allocator + Copy>(
    links: &mut Vec<LinkInput<A>, A>,
    i: u32,
    bytes: &[u8],
) -> Result<(), AllocError>
    ensures { OnOk result (links.new.items ≡ given links.old.items i bytes.now) }
{
    let i = i as usize;
    if 1 <= i && i <= links.len() {
        links[i - 1].give(bytes)?;
    }
    Ok(())
}

/// Does what a line says: it makes a link, or gives one its next bytes.
fn take_line<A: Allocator + Copy>(
    alloc: A,
    links: &mut Vec<LinkInput<A>, A>,
    number: u64,
    line: &Line<A>,
) -> Result<(), CaptureRefusal>
    ensures { MatchResult result (λ _. line_taken links.old.items (number, line.now) ≡ Ok links.new.items)
        (λ refusal. IsRefused refusal (line_taken links.old.items (number, line.now))) }
{
    match line {
        Line::Join => links.push(LinkInput::new(alloc, Role::Plain))?,
        Line::Greeted => links.push(LinkInput::new(alloc, Role::Accepting))?,
        Line::Piece { link, bytes } => give(links, *link, bytes.as_slice())?,
        _ => return Err(CaptureRefusal::at(number, Cause::Load)),
    }
    Ok(())
}

/// The links that lines make, each with all its bytes.
fn read_links<A: Allocator + Copy>(
    alloc: A,
    lines: &[(u64, Line<A>)],
) -> Result<Vec<LinkInput<A>, A>, CaptureRefusal>
    ensures { IsRead (λ v. v.items) result (links_from [] lines.now) }
{
    let mut links = Vec::new(alloc);
    for (number, line) in lines {
        take_line(alloc, &mut links, *number, line)?;
    }
    Ok(links)
}

/// The links over memory that the lines of a capture make, in the order of their `join` and `open` lines: each gives the bytes
/// of all its `data` lines, 4,096 at a time. An `Err` is the first line that is none of these three, with the cause `Load`; or
/// out of memory.
pub fn links_of<A: Allocator + Copy>(
    alloc: A,
    lines: &[(u64, Line<A>)],
) -> Result<Vec<MemoryLink<A>, A>, CaptureRefusal>
    ensures { IsRead (λ v. v.items) result (links_from [] lines.now) }
{
    let read = read_links(alloc, lines)?;
    let mut links = Vec::new(alloc);
    for link_input in read {
        links.push(link_input.into_link())?;
    }
    Ok(links)
}
