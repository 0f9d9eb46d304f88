//! Where a caller stands who was accepted until the run lets it in.

ghost use Rattle.std.specs.Prelude.{◌≡◌, None};
ghost use Rattle.gn_shake.specs.declared.role.Role.TheVariants.{Accepting};

use gn_room::Signal;
use gn_tcp::{TcpLink, TcpStopper};
use std::marker::Model;
use std::sync::atomic::{AtomicBool, Ordering};
use std::sync::{Mutex, Wait};
use std::thread::Parker;

/// A caller who was accepted, and what ends its link.
#[derive(Drop)]
pub(crate) struct Guest {
    found: TcpLink<'static>,
    stopper: TcpStopper,
}

impl Model for Guest {
    ghost use Rattle.std.specs.Prelude.{◌≡◌, None};
    ghost use Rattle.gn_shake.specs.declared.role.Role.TheVariants.{Accepting};
    ghost use Rattle.gn_tcp.specs.Tcp.{TcpLinked};

    ghost Value = { TcpLinked };

    ghost view = { λ g. g.found };

    ghost invariant = { λ g. (g.found.role ≡ Accepting) × (g.found.origin ≡ record { link = 0; called = None }) };
}

impl Guest {
    /// The caller over this link, which that ends.
    pub(crate) fn new(found: TcpLink<'static>, stopper: TcpStopper) -> Self
        requires { (found.role ≡ Accepting) × (found.origin ≡ record { link = 0; called = None }) }
    {
        Guest { found, stopper }
    }

    /// Its link, and what ends that.
    pub(crate) fn into_parts(self) -> (TcpLink<'static>, TcpStopper)
        ensures { (result.0.role ≡ Accepting) × (result.0.origin ≡ record { link = 0; called = None }) }
    {
        let Guest { found, stopper } = self;
        (found, stopper)
    }
}

/// Where one caller stands at a time, between who accepts it and the run, which lets it in.
#[derive(Drop)]
pub(crate) struct Doorstep<'a> {
    guest: Mutex<Option<Guest>>,
    /// Whether one is to be accepted.
    is_wanted: AtomicBool,
    /// Whether nobody can be accepted any more.
    has_failed: AtomicBool,
    accepter: Parker,
    /// What the run waits by.
    signal: &'a Signal,
}

impl<'a> Doorstep<'a> {
    /// Nobody stands there. The run waits by this signal.
    pub(crate) fn new(signal: &'a Signal) -> Self {
        Doorstep {
            guest: Mutex::new(None),
            is_wanted: AtomicBool::new(false),
            has_failed: AtomicBool::new(false),
            accepter: Parker::new(),
            signal,
        }
    }

    /// Who stands there, and is let in. Where nobody does, somebody is wanted from now on.
    pub(crate) fn let_in<R: Wait>(&self, rt: &R) -> Option<Guest> {
        let mut held = self.guest.lock(rt);
        let guest = held.take();
        if guest.is_none() {
            self.is_wanted.store(true, Ordering::SeqCst);
            self.accepter.unpark();
        }
        guest
    }

    /// Who came isn't let in, so that somebody is wanted still.
    pub(crate) fn want(&self) {
        self.is_wanted.store(true, Ordering::SeqCst);
    }

    /// Whether nobody can be accepted any more.
    pub(crate) fn has_failed(&self) -> bool {
        self.has_failed.load(Ordering::SeqCst)
    }

    /// Waits until somebody is wanted, or who accepts is to look again. Whether somebody is.
    pub(crate) fn wait<R: Wait>(&self, rt: &R) -> bool {
        if self.is_wanted.swap(false, Ordering::SeqCst) {
            return true;
        }
        self.accepter.park(rt);
        self.is_wanted.swap(false, Ordering::SeqCst)
    }

    /// A caller stands there from now on.
    pub(crate) fn put<R: Wait>(&self, rt: &R, guest: Guest) {
        let mut held = self.guest.lock(rt);
        *held = Some(guest);
        // one was wanted maybe while this one was on its way
        self.is_wanted.store(false, Ordering::SeqCst);
        drop(held);
        self.signal.raise(rt);
    }

    /// Nobody can be accepted any more.
    pub(crate) fn fail<R: Wait>(&self, rt: &R) {
        self.has_failed.store(true, Ordering::SeqCst);
        self.signal.raise(rt);
    }

    /// Has who accepts look again.
    pub(crate) fn release(&self) {
        self.accepter.unpark();
    }

    /// Has who accepts and the run look again.
    pub(crate) fn wake<R: Wait>(&self, rt: &R) {
        self.release();
        self.signal.raise(rt);
    }
}
