//! The law of runs that sockets join.

ghost use Rattle.gn_network.specs.Sockets.{RunsMakeANetwork};

use std::alloc::Allocator;

/// The law that runs carry to each other what they are given, where what each socket's reader read is a beginning of what its
/// writer wrote. The reports of `run` and of a run over TCP are such, since their contracts have `Holds`.
pub fn runs_make_a_network<Rd, W, A: Allocator>()
    ensures { RunsMakeANetwork Rd W A }
{}
