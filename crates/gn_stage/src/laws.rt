//! What holds of a stage at every moment.

ghost use Rattle.gn_stage.specs.Bound.{QueueIsBounded};
ghost use Rattle.gn_stage.specs.Jobs.{Queued};

/// The law that a queue never holds more jobs than its capacity.
pub fn queue_is_bounded()
    ensures { QueueIsBounded Queued }
{}
