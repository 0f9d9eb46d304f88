//! Who learns of the links of a run over TCP as they end.

use crate::callees::Callees;
use gn_report::{Leaving, LinkAccount};
use gn_tcp::{TcpReader, TcpWriter};
use std::alloc::Allocator;
use std::sync::Wait;
use std::time::Clock;

/// Learns of each link of a run over TCP as it ends.
pub trait Parting<A: Allocator> {
    /// This link has ended so.
    fn left(&self, link: u32, account: &LinkAccount<TcpReader<'_>, TcpWriter, A>);
}

/// Tells one who learns of the links as they end, and has a peer that was called over such a link called again, where peers are.
#[derive(Drop)]
pub(crate) struct Told<'a, T, R, A: Allocator> {
    leaving: &'a T,
    rt: &'a R,
    callees: &'a Callees<A>,
}

impl<'a, T, R, A: Allocator> Told<'a, T, R, A> {
    /// Tells this one of the links of a run that calls these peers.
    pub(crate) fn new(leaving: &'a T, rt: &'a R, callees: &'a Callees<A>) -> Self {
        Told {
            leaving,
            rt,
            callees,
        }
    }
}

impl<'a, 's, A: Allocator, T: Parting<A>, R: Wait + Clock> Leaving<TcpReader<'s>, TcpWriter, A>
    for Told<'a, T, R, A> {
    fn left(&self, link: u32, account: &LinkAccount<TcpReader<'s>, TcpWriter, A>) {
        self.callees.leave(self.rt, link);
        self.leaving.left(link, account);
    }
}
