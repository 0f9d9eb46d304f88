//! How it is said what became of each link as it ends, by a serve of any number of callers.

use crate::reports::line_of;
use crate::text::write_text;
use gn_io::Sink;
use gn_report::LinkAccount;
use gn_service::Parting;
use gn_tcp::{TcpReader, TcpWriter};
use std::alloc::Global;
use std::sync::{Mutex, Wait};

/// Writes the line of each link whose peer came, as the link ends, where that is asked for.
#[derive(Drop)]
pub(crate) struct Leavings<'a, 'f, R, F> {
    rt: &'a R,
    faults: Mutex<&'f mut F>,
    are_said: bool,
}

impl<'a, 'f, R, F> Leavings<'a, 'f, R, F> {
    /// They are written there.
    pub(crate) fn new(rt: &'a R, faults: &'f mut F, are_said: bool) -> Self {
        Leavings {
            rt,
            faults: Mutex::new(faults),
            are_said,
        }
    }
}

impl<'a, 'f, R: Wait, F: Sink> Parting<Global> for Leavings<'a, 'f, R, F> {
    fn left(&self, link: u32, account: &LinkAccount<TcpReader<'_>, TcpWriter>) {
        if self.are_said && !account.reader.is_missing() {
            let mut faults = self.faults.lock(self.rt);
            let _ = write_text(&mut **faults, line_of(link as usize, account));
        }
    }
}
