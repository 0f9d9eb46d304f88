//! What the bodies of each link did, once the halves of the links have gone.

ghost use Rattle.std.specs.Prelude.{◌≡◌, IfSome};
ghost use Rattle.gn_service.specs.Tallies.{tallies_of};

use gn_report::{LinkAccount, LinkTally};
use std::alloc::Allocator;

/// What the bodies of each of these links did. `None` is out of memory.
pub fn tallies_of<Rd, W, A: Allocator + Copy>(
    alloc: A,
    links: &[LinkAccount<Rd, W, A>],
) -> Option<Vec<LinkTally, A>>
    ensures { IfSome result (λ tallies. tallies.items ≡ tallies_of links.now) }
{
    let mut tallies = Vec::new(alloc);
    for link in links {
        let tally = LinkTally {
            read: link.read,
            written: link.written,
        };
        if tallies.push(tally).is_err() {
            return None;
        }
    }
    Some(tallies)
}
