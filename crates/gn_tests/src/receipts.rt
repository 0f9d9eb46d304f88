//! The receipts of three actors, made of their history.

use gn_capture::read_history;
use gn_receipts::receipts_by_actor;
use gn_rules::{Receipt, Step, is_step_of};
use std::alloc::Global;
use std::test::Fail;

/// Actor 0 connects and sends a Ping, which actor 2 routes; actor 1 does nothing, and actor 3 isn't one of the three.
const HISTORY: &str = "gnutella-history 1\n\
config 4 8 4 8 8 100\n\
own eeeeeeeeeeeeeeeeeeeeeeeeeeeeeeee 127.0.0.1 6346 5 40\n\
0 connect = connected 1\n\
3 connect = connected 2\n\
0 admit 1 a1a1a1a1a1a1a1a1a1a1a1a1a1a1a1a100010000000000 = admitted 0\n\
2 route 0 = routed local 1+a1a1a1a1a1a1a1a1a1a1a1a1a1a1a1a10101000e000000ca187f0000010500000028000000\n\
0 close 1 = closed 1\n\
end\n";

/// The indices of each actor's steps.
static OWN: [&[u32]; 3] = [&[0, 2, 4], &[], &[3]];

/// Whether an actor's receipts are of its steps at these indices, in order.
fn are_of(actor: u32, receipts: &[Receipt], steps: &[Step], indices: &[u32]) -> bool {
    for (receipt, index) in receipts.iter().zip(indices) {
        match steps.get(*index as usize) {
            Some(step) if receipt.index == *index && is_step_of(step, actor, receipt) => {}
            _ => return false,
        }
    }
    receipts.len() == indices.len()
}

/// Whether each actor has the receipts of its own steps.
fn are_own(all: &[Vec<Receipt>], steps: &[Step]) -> bool {
    for (actor, (receipts, indices)) in (0u32..).zip(all.iter().zip(&OWN)) {
        if !are_of(actor, receipts.as_slice(), steps, indices) {
            return false;
        }
    }
    all.len() == OWN.len()
}

/// Whether the receipts that are made of these five steps are each actor's own.
fn makes_own(alloc: Global, steps: &[Step]) -> Result<bool, Fail> {
    if steps.len() != 5 {
        return Ok(false);
    }
    let all = receipts_by_actor(alloc, steps, 3)?;
    Ok(are_own(all.as_slice(), steps))
}

/// Fails where that doesn't hold of that history.
fn history_makes_own(alloc: Global) -> Result<(), Fail> {
    let (_, steps) = read_history(alloc, HISTORY.as_bytes())?;
    let makes_own = makes_own(alloc, steps.as_slice());
    drop(steps);
    if makes_own? {
        Ok(())
    } else {
        Err(Fail::from("receipts"))
    }
}

#[test]
fn each_actor_has_its_own_receipts(rt: HostRuntime) -> Result<(), Fail> {
    history_makes_own(rt.alloc())
}
