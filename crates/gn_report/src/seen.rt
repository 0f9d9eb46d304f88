//! The laws by which a report goes with its history where enough of it is seen.

ghost use Rattle.gn_report.specs.Ended.{EndedIsSeen};
ghost use Rattle.gn_report.specs.Seen.{SeenIsConfirmed};

use std::alloc::Allocator;

/// The law that a report has no flaw where its bodies' promises and a few looks at the router and at each link say enough.
pub fn seen_is_confirmed<Rd, W, A: Allocator>()
    ensures { SeenIsConfirmed Rd W A }
{}

/// The law that enough is seen of a run all of whose links have ended, where what was counted of them is right. `O` is what a half says of
/// the link that it was split from.
pub fn ended_is_seen<Rd, W, A: Allocator, O>()
    ensures { EndedIsSeen Rd W A O }
{}
