//! A text that only proofs read.

ghost use Rattle.std.specs.Prelude.{◌≡◌, ◌++◌};

use gn_trail::Trail;

/// These bytes are written next of a text that contracts alone see.
pub(crate) fn note(text: &mut Trail<u8>, more: &[u8])
    ensures { text.new.items ≡ text.old.items ++ more.now }
{
    for byte in more {
        *text = text.and(byte);
    }
}
