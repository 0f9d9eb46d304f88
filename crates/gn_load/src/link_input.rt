//! A link while its lines are read.

ghost use Rattle.std.specs.Prelude.{◌≡◌, ◌++◌, [], OnOk};
ghost use Rattle.gn_load.specs.Links.{link_of};

use gn_service::{MemoryLink, Role};
use std::alloc::{AllocError, Allocator, Global};
use std::marker::Model;

/// The most bytes of one read of a link.
const PIECE: usize = 4096;

/// A link with the bytes that its lines gave it so far.
#[derive(Drop)]
pub(crate) struct LinkInput<A: Allocator = Global> {
    role: Role,
    bytes: Vec<u8, A>,
}

impl<A: Allocator> Model for LinkInput<A> {
    ghost use Rattle.gn_links.specs.Memory.{Memory};
    ghost use Rattle.gn_load.specs.Links.{link_of};

    ghost Value = { Memory };

    ghost view = { λ g. link_of g.role g.bytes.items };
}

impl<A: Allocator + Copy> LinkInput<A> {
    /// A link without bytes.
    pub(crate) fn new(alloc: A, role: Role) -> Self
        ensures { result ≡ link_of role [] }
    {
        LinkInput {
            role,
            bytes: Vec::new(alloc),
        }
    }

    /// Gives the link its next bytes.
    pub(crate) fn give(&mut self, bytes: &[u8]) -> Result<(), AllocError>
        ensures { OnOk result (self.new ≡ record self.old { bytes = self.old.bytes ++ bytes.now }) }
    {
        self.bytes.extend_from_slice(bytes)
    }

    /// The link over memory with these bytes.
    pub(crate) fn into_link(self) -> MemoryLink<A>
        ensures { result ≡ self }
    {
        MemoryLink::new(self.role, self.bytes, PIECE)
    }
}
