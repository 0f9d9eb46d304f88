//! A router that has made no step.

ghost use Rattle.std.specs.Prelude.{◌≡◌, [], IfOk};

use crate::config::Config;
use crate::router_core::RouterCore;
use std::alloc::{AllocError, Allocator};

/// A router that can be made by its configuration alone.
pub trait FreshRouter<A: Allocator + Copy>: RouterCore<A> {
    /// A router with no steps. An `Err` is out of memory.
    fn make(alloc: A, config: &Config) -> Result<Self, AllocError>
        ensures settings { IfOk result (λ router. Self.settings router ≡ config.now) }
        ensures empty { IfOk result (λ router. Self.steps router ≡ []) };
}
