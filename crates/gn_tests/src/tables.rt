//! The bytes that an entry of a ring takes.

use gn_wire::{Descriptor, Key};
use std::mem::size_of;

#[test]
fn bytes_that_rings_take(rt: HostRuntime) {
    assert_eq!(rt;
        [size_of::<(Key, u32)>(), size_of::<Descriptor>()],
        [24, 64]
    );
}
