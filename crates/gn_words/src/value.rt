//! What stands behind an option, as it is written.

ghost use Rattle.std.specs.Prelude.{◌≡◌, ◌++◌, OnOk, decimal};
ghost use Rattle.clap.specs.Words.{Text};

use gn_text::push_number;
use std::alloc::AllocError;

/// What stands behind an option.
pub(crate) trait Value {
    /// Its text.
    ghost text: { Self → Text };

    /// Appends its text. An `Err` is out of memory.
    fn push(&self, out: &mut Vec<u8>) -> Result<(), AllocError>
        ensures { OnOk result (out.new.items ≡ out.old.items ++ text self.now) };
}

impl Value for u32 {
    ghost text = { decimal };

    fn push(&self, out: &mut Vec<u8>) -> Result<(), AllocError> {
        push_number(out, *self)
    }
}
