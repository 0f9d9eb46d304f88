//! What waits for one connection.

ghost use Rattle.std.specs.Prelude.{◌≡◌, ◌↔◌, ◌<◌, ◌∷◌, ◌++◌, [], length, IfErr, IsOk, OnOk};
ghost use Rattle.circular_buffer.specs.Buffer.{buffer};

use circular_buffer::HeapCircularBuffer;
use gn_wire::Descriptor;
use std::alloc::{Allocator, Global};

/// The packets that wait for one connection, the first to go first. It has room for a fixed number of them.
pub type Output<A = Global> = HeapCircularBuffer<Descriptor<A>, A>;

/// Puts a packet after those that wait. An `Err` hands it back: there is no room.
pub fn put<A: Allocator>(output: &mut Output<A>, packet: Descriptor<A>) -> Result<(), Descriptor<A>>
    ensures variant { IsOk result ↔ (length output.old.items < output.old.capacity) }
    ensures ok { OnOk result (output.new ≡ buffer (output.old.items ++ packet ∷ []) output.old.capacity) }
    ensures err { IfErr result (λ d. (d ≡ packet) × (output.new ≡ output.old)) }
{
    output.try_push_back(packet)
}
