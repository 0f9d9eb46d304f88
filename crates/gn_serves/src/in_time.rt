//! A time limit for runs that a mistake would leave waiting for ever.

use std::process::Abort;
use std::sync::atomic::{AtomicBool, Ordering};
use std::thread;
use std::time::{Clock, Duration};

/// How often one looks whether a run is over, a hundredth of a second apart. The gate lets a test go on for three times as long.
const LOOKS: u32 = 2000;

/// Waits until a run is over, and ends the test by this text where it isn't within 20 seconds.
pub(crate) fn watch<R: Abort + Clock>(rt: &R, is_over: &AtomicBool, text: &str) {
    for _ in 0..LOOKS {
        if is_over.load(Ordering::SeqCst) {
            return;
        }
        thread::sleep(rt, Duration::from_millis(10));
    }
    rt.panic(text)
}
