//! Serves whose own servent sends its neighbours Pings.

use crate::any::{Clients, found_of};
use std::test::Fail;

/// A neighbour that goes without a word is found by the Pings of the own servent, and the history is legal.
#[test]
fn who_has_gone_is_found(rt: HostRuntime) -> Result<(), Fail> {
    let found = found_of(&rt, rt.alloc(), Clients::Go)?;
    assert!(rt; found.sent >= 2);
    Ok(())
}
