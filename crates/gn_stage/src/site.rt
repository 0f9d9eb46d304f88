//! Which stage an end belongs to, as a part of its type.

use std::marker::Brand;

/// Stands for one opened stage: ends of one stage alone come home to its desk. A caller passes `Brand`, and picks the stage
/// that it opened.
pub trait Site {
    ghost use Rattle.gn_stage.specs.Opened.{Opened};
    ghost use Rattle.gn_stage.specs.Jobs.{Queued};

    ghost stage: { Opened Queued };
}

impl Site for Brand {
    ghost use Rattle.gn_stage.specs.Opened.{nowhere};

    ghost stage = { nowhere };
}
