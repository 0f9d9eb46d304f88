//! What a run is asked for.

use gn_hub::Batch;
use gn_rules::Config;
use gn_shake::Role;

/// What a run is asked for, whatever its links and its router: the configuration, how many workers, the gate that they pass, and how
/// many packets a writer takes at once at most.
#[derive(Drop)]
pub struct Asked<'a, G> {
    pub config: &'a Config,
    pub workers: u32,
    pub gate: &'a G,
    pub batch: Batch,
}

/// Links that come one after another, and the roles in which they shall begin.
#[derive(Drop)]
pub struct Coming<'a, V> {
    pub roles: &'a [Role],
    pub arrivals: V,
}

/// A router, and what becomes of its steps.
#[derive(Drop)]
pub struct Routing<C, W> {
    pub core: C,
    pub course: W,
}
