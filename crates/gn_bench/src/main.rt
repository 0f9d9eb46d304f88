//! The benchmarks of parts that can't be measured from outside, by the argument: `tables` and `stage`. With no argument a
//! little of each. Times go to standard error.
#![tactic(auto)]

mod setup;
mod stage;
mod tables;

use stage::measure_stage;
use std::alloc::Global;
use std::process::ExitCode;
use std::rt::Runtime;
use std::sync::Wait;
use std::thread::Threads;
use std::{env, io};
use tables::measure_tables;

/// The word can't be read.
const USAGE: u8 = 2;

/// Measures the part that the word names.
fn measure<R: Runtime + Threads + Wait + Sync>(
    rt: &R,
    alloc: Global,
    part: &str,
) -> io::Result<ExitCode> {
    match part {
        "tables" => measure_tables(rt, alloc, 1_000_000)?,
        "stage" => measure_stage(rt, alloc, 1_000_000)?,
        _ => {
            eprintln!(rt; "usage: gn_bench [tables|stage]")?;
            return Ok(ExitCode::from(USAGE));
        }
    }
    Ok(ExitCode::SUCCESS)
}

/// Both parts, each with a thousand rounds: enough to see that they run.
fn measure_little<R: Runtime + Threads + Wait + Sync>(
    rt: &R,
    alloc: Global,
) -> io::Result<ExitCode> {
    measure_tables(rt, alloc, 1_000)?;
    measure_stage(rt, alloc, 1_000)?;
    Ok(ExitCode::SUCCESS)
}

fn main(rt: HostRuntime) -> io::Result<ExitCode> {
    let alloc = rt.alloc();
    match env::args(&rt)?.nth(1) {
        Some(part) => measure(&rt, alloc, part.as_str()),
        None => measure_little(&rt, alloc),
    }
}
