//! Laws of tickets.

ghost use Rattle.gn_laws.specs.Tickets.{AdmittedOnce, RoutedOnce, RoutesAreReplied, TicketsCount};

use std::alloc::Allocator;

/// The law that tickets are numbered 0, 1, 2 and so on.
pub fn tickets_count<A: Allocator>()
    ensures { TicketsCount A }
{}

/// The law that a ticket is admitted at most once.
pub fn admitted_once<A: Allocator>()
    ensures { AdmittedOnce A }
{}

/// The law that only an admitted ticket is routed, and at most once.
pub fn routed_once<A: Allocator>()
    ensures { RoutedOnce A }
{}

/// The law that a step Route is replied Routed or Dropped.
pub fn routes_are_replied<A: Allocator>()
    ensures { RoutesAreReplied A }
{}
