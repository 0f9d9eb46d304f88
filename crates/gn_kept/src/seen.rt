//! The last descriptors that were remembered, and where each came from.

ghost use Rattle.std.specs.Prelude.{◌≡◌, ◌<◌, ◌≤◌, [], None, true, IfOk, OnErr, OnOk};
ghost use Rattle.std.specs.Map.{lookup};
ghost use Rattle.circular_buffer.specs.Buffer.{buffer};
ghost use Rattle.indexmap.specs.IndexMap.{spare};
ghost use Rattle.gn_wire.specs.declared.key.Key.{Key};
ghost use Rattle.gn_wire.specs.Keys.{is_same_key, key_of};
ghost use Rattle.gn_rules.specs.SeenEntries.{keeps};
ghost use Rattle.gn_kept.specs.Remembered.{IsNewKey, IsRemembered, forgotten, with_entry, with_kept};

use circular_buffer::HeapCircularBuffer;
use gn_rules::{ConnId, Reply};
use gn_wire::{Descriptor, Guid, Key, Kind};
use indexmap::IndexMap;
use std::alloc::{AllocError, Allocator, Global};
use std::hash::{BuildHasherDefault, FoldHasher};
use std::marker::Model;

/// The source of each key that is remembered.
type Sources<A> = IndexMap<Key, u32, BuildHasherDefault<FoldHasher>, A>;

/// The keys that are remembered, newest first, each with its source.
type Ring<A> = HeapCircularBuffer<(Key, u32), A>;

/// The keys that were kept last, newest first, each with the connection that it came from. Keys are hashed with a fixed
/// seed. The ring takes its memory at once, 24 bytes for each key that may be kept (1,572,864 bytes for 65,536); the
/// hashed table grows as keys come.
pub struct SeenTable<A: Allocator + Copy = Global> {
    sources: Sources<A>,
    ring: Ring<A>,
}

impl<A: Allocator + Copy> Drop for SeenTable<A> {
    fn drop(self) {
        let SeenTable {
            sources: _,
            ring: _,
        } = self;
    }
}

impl<A: Allocator + Copy> Model for SeenTable<A> {
    ghost use Rattle.gn_kept.specs.Remembered.{AreSources, Remembered};

    ghost Value = { Remembered };

    ghost view = { λ t. record { seen_entries = t.ring.items; most = t.ring.capacity } };

    ghost invariant = { λ t. AreSources t.sources.entries t.ring.items t.ring.capacity };
}

impl<A: Allocator + Copy> SeenTable<A> {
    /// Nothing kept yet, and room for `most` keys: 1 to 65,536. An `Err` is out of memory.
    pub fn new(alloc: A, most: u32) -> Result<Self, AllocError>
        requires positive { 0 < most }
        requires limit { most ≤ 65536 }
        ensures { IfOk result (λ t. t ≡ record { seen_entries = []; most = most }) }
    {
        Ok(SeenTable {
            sources: IndexMap::new(alloc),
            ring: ring_of(alloc, most)?,
        })
    }

    /// Where the descriptor of this kind and ID came from, where it is still kept. What every table keeps is stated here too.
    pub fn source(&self, kind: Kind, id: &Guid) -> Option<u32>
        ensures value { result ≡ lookup (is_same_key (record { kind = kind; id = id.now })) self.now.seen_entries }
        ensures kept { IsRemembered self.now }
    {
        self.sources.get(&Key { kind, id: *id }).copied()
    }

    /// Keeps a new key first; a full table forgets its oldest one. An `Err` is out of memory, and changes nothing.
    pub fn keep(&mut self, kind: Kind, id: Guid, from: u32) -> Result<(), AllocError>
        requires { IsNewKey (record { kind = kind; id = id }) self.old }
        ensures ok { OnOk result (self.new ≡ with_entry (record { kind = kind; id = id }) from self.old) }
        ensures err { OnErr result (self.new ≡ self.old) }
    {
        let key = Key { kind, id };
        self.sources.reserve(1)?;
        let fallen = self.ring.push_front((key, from));
        forget(&mut self.sources, fallen);
        match self.sources.insert(key, from) {
            Ok(_) => Ok(()),
            Err(_) => unreachable!(),
        }
    }

    /// Keeps the key of a descriptor of this connection, where a route with this reply is kept. An `Err` is out of memory, and
    /// changes nothing.
    pub fn keep_routed(
        &mut self,
        from: ConnId,
        descriptor: &Descriptor<A>,
        reply: &Reply<A>,
    ) -> Result<(), AllocError>
        requires { keeps descriptor.now.kind reply.now ≡ true → IsNewKey (key_of descriptor.now) self.old }
        ensures ok { OnOk result
            (self.new ≡ with_kept reply.now (record { origin = from; packet = descriptor.now }) self.old) }
        ensures err { OnErr result (self.new ≡ self.old) }
    {
        if reply.keeps(descriptor.kind()) {
            return self.keep(descriptor.kind(), descriptor.id(), from);
        }
        Ok(())
    }
}

/// The entries of a table, none of them yet.
fn ring_of<A: Allocator>(alloc: A, most: u32) -> Result<Ring<A>, AllocError>
    ensures { IfOk result (λ ring. ring ≡ buffer [] most) }
{
    HeapCircularBuffer::with_capacity(alloc, most as usize)
}

/// Forgets the source of the key that fell out of the ring.
fn forget<A: Allocator + Copy>(sources: &mut Sources<A>, fallen: Option<(Key, u32)>)
    ensures entries { (q : Key) → lookup (is_same_key q) sources.new.entries
        ≡ forgotten fallen q (lookup (is_same_key q) sources.old.entries) }
    ensures room { spare sources.old ≤ spare sources.new }
{
    if let Some((key, _)) = fallen {
        sources.swap_remove(&key);
    }
}
