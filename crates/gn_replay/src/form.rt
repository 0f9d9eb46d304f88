//! What is printed of a replay.

ghost use Rattle.std.specs.Prelude.{◌≡◌, IfOk};
ghost use Rattle.gn_replay.specs.Printed.{begun_of, ending_of};

use crate::histories::history_heading;
use gn_io::Block;
use gn_rules::Config;
use std::alloc::{AllocError, Allocator};

/// What is printed of a replay.
#[derive(Clone, Copy)]
pub(crate) enum Form {
    /// All that its lines do.
    Whole,
    /// The steps of its router alone, as a history.
    Steps,
}

impl Form {
    /// What is printed before all lines.
    pub(crate) fn beginning<A: Allocator + Copy>(
        self,
        alloc: A,
        config: &Config,
    ) -> Result<Block<A>, AllocError>
        ensures { IfOk result (λ block. block ≡ begun_of self config.now) }
    {
        match self {
            Form::Whole => Ok(Block::new(alloc)),
            Form::Steps => history_heading(alloc, config),
        }
    }

    /// What is printed after all lines.
    pub(crate) fn ending(self) -> &'static [u8]
        ensures { result.now ≡ ending_of self }
    {
        match self {
            Form::Whole => b"",
            Form::Steps => b"end\n",
        }
    }
}
