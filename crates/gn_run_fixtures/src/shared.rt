//! Runs of many Pings that two workers share.

use gn_fixtures::PING;
use gn_report::Report;
use std::alloc::{AllocError, Global};

/// Pings with these numbers in their IDs, TTL 7 and Hops 0, one after another.
pub fn pings(alloc: Global, link: u8, count: u8) -> Result<Vec<u8>, AllocError> {
    let mut bytes = Vec::new(alloc);
    for number in 0..count {
        bytes.extend_from_slice(&[link, number])?;
        bytes.extend_from_slice(&PING[2..])?;
    }
    Ok(bytes)
}

/// Whether a run has two workers of 300 receipts each.
pub fn are_even<Rd, W>(report: &Report<Rd, W>) -> bool {
    for receipts in &report.workers {
        if receipts.len() != 300 {
            return false;
        }
    }
    report.workers.len() == 2
}
