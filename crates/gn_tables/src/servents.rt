//! The servents whose answers were routed last, and the route to each.

ghost use Rattle.std.specs.Prelude.{◌≡◌, ◌<◌, ◌≤◌, [], IfOk, IsOk, IsSome, OnErr, OnOk};
ghost use Rattle.std.specs.Map.{lookup};
ghost use Rattle.gn_wire.specs.Keys.{is_same_id};
ghost use Rattle.gn_tables.specs.Servents.{AreServents, learned};

use gn_wire::Guid;
use lru::LruCache;
use std::alloc::{AllocError, Allocator, Global};
use std::marker::Model;
use std::num::NonZeroUsize;

/// The servents that answered last, the newest first, each with the connection that its answer came from. Servent IDs
/// are hashed with a fixed seed. It grows as servents are learned.
#[derive(Drop)]
pub struct ServentTable<A: Allocator + Copy = Global> {
    routes: LruCache<Guid, u32, lru::DefaultHasher, A>,
}

impl<A: Allocator + Copy> Model for ServentTable<A> {
    ghost use Rattle.std.specs.Prelude.{◌<◌};
    ghost use Rattle.gn_tables.specs.Servents.{AreServents, Servents};

    ghost Value = { Servents };

    ghost view = { λ t. record { routes = t.routes.entries; most = t.routes.cap } };

    ghost invariant = { λ t. (0 < t.routes.cap)
        × AreServents (record { routes = t.routes.entries; most = t.routes.cap }) };
}

impl<A: Allocator + Copy> ServentTable<A> {
    /// Nothing learned yet, and room for `most` servents: 1 to 65,536. An `Err` is out of memory.
    pub fn new(alloc: A, most: u32) -> Result<Self, AllocError>
        requires positive { 0 < most }
        requires limit { most ≤ 65536 }
        ensures { IfOk result (λ t. t ≡ record { routes = []; most = most }) }
    {
        match NonZeroUsize::new(most as usize) {
            Some(most) => Ok(ServentTable {
                routes: LruCache::sparse(alloc, most)?,
            }),
            None => unreachable!(),
        }
    }

    /// Which connection the servent's last answer came from, where it is still known. The order stays as it is.
    /// What every table keeps is stated here too.
    pub fn route(&self, servent: &Guid) -> Option<u32>
        ensures value { result ≡ lookup (is_same_id servent.now) self.now.routes }
        ensures kept { AreServents self.now }
    {
        self.routes.peek(servent).copied()
    }

    /// Puts the servent first, with its new source; above the table's size the last one is forgotten. An `Err` is out
    /// of memory, comes only for a servent that wasn't known, and changes nothing.
    pub fn learn(&mut self, servent: Guid, from: u32) -> Result<(), AllocError>
        ensures ok { OnOk result (self.new ≡ learned servent from self.old) }
        ensures err { OnErr result (self.new ≡ self.old) }
        ensures known { IsSome (lookup (is_same_id servent) self.old.routes) → IsOk result }
    {
        self.routes.put(servent, from)?;
        Ok(())
    }
}
