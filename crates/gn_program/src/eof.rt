//! The end of standard input, which stops a run.

use gn_service::Stop;
use std::alloc::{AllocError, Global};
use std::io::StdinLock;
use std::sync::Arc;
use std::thread;
use std::thread::Threads;

/// Has a run stopped at the end of standard input. A read of that can't be ended from outside, so the thread that reads it is
/// never joined: it ends at the latest with the process. Where no thread can be made it is out of memory.
pub(crate) fn stop_at_eof<R: Threads + Input<Reader = StdinLock<'static>>>(
    rt: &R,
    stop: &Arc<Stop, Global>,
) -> Result<(), AllocError> {
    let stop = Arc::try_clone(stop)?;
    let mut input = rt.reader();
    let _reader = thread::spawn(rt, move || {
        let _ = stop.set_at_end(&mut input);
    })?;
    Ok(())
}
