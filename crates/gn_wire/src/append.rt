//! Bytes that are appended whole or not at all.

ghost use Rattle.std.specs.Prelude.{◌≡◌, take, OnErr, OnOk};

use std::alloc::{AllocError, Allocator};

/// Ends what was begun where so many bytes stood: after an error what was appended since then is taken away again. The
/// result is given on.
pub fn whole_or_none<A: Allocator>(
    out: &mut Vec<u8, A>,
    start: usize,
    appended: Result<(), AllocError>,
) -> Result<(), AllocError>
    ensures value { result ≡ appended }
    ensures ok { OnOk result (out.new.items ≡ out.old.items) }
    ensures err { OnErr result (out.new.items ≡ take start out.old.items) }
{
    if appended.is_err() {
        out.truncate(start);
    }
    appended
}
