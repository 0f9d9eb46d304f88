//! The batch of a run as `gn` makes it, and what it says of a load.

use gn_load::Loading;
use gn_service::Batch;

/// How many packets a writer writes at once at most.
pub(crate) fn usual_batch() -> Batch {
    match Batch::of(64) {
        Some(batch) => batch,
        None => Batch::one(),
    }
}

/// A load by so many workers, which is watched so.
pub(crate) fn usual_loading<G>(workers: u32, watch: &G) -> Loading<'_, G> {
    Loading {
        workers,
        watch,
        batch: usual_batch(),
    }
}
