//! A job that was never admitted, before one that was.

use super::worked::ONE_PING;
use super::{Setting, USUAL, run_plain};
use gn_bodies::BodyFault;
use gn_fixtures::PING;
use std::alloc::Global;
use std::process::Abort;
use std::sync::Wait;
use std::test::Fail;

/// Fails unless such a job has its worker end as refused, and the run goes on as without it.
fn pass_over<R: Wait + Abort>(rt: &R, alloc: Global) -> Result<(), Fail> {
    let setting = Setting {
        forged: (7, 1),
        lines: ONE_PING,
        ..USUAL
    };
    let ran = run_plain(rt, alloc, setting, PING)?;
    assert!(rt; ran.ends.1 == Err(BodyFault::Refused));
    assert!(rt; !ran.has_failed && ran.is_closing && ran.has_lines);
    Ok(())
}

#[test]
fn a_forged_job_is_passed_over(rt: HostRuntime) -> Result<(), Fail> {
    pass_over(&rt, rt.alloc())
}
