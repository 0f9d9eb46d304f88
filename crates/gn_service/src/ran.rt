//! What a run over TCP did, remembered once its account has gone.

ghost use Rattle.std.specs.Prelude.{◌≡◌};
ghost use Rattle.gn_report.specs.Accounts.{report_of};
ghost use Rattle.gn_service.specs.Any.{ran_of_any};
ghost use Rattle.gn_service.specs.Ran.{account_sockets, ran_of};

use gn_report::{Account, LinkAccount, Unkept};
use gn_rules::Step;
use gn_tcp::{TcpReader, TcpWriter};
use gn_threads::OpenAccount;
use gn_trail::{Lists, Told, Trail};
use std::alloc::{Allocator, Global};
use std::marker::Model;
use std::snapshot::Snapshot;

/// What a link's socket gave and took.
#[derive(Drop)]
struct Seen {
    gave: Told,
    writing: TcpWriter,
}

impl Model for Seen {
    ghost use Rattle.gn_tcp.specs.Seen.{SocketSeen};

    ghost Value = { SocketSeen };

    ghost view = { λ s. record { gave = s.gave; writing = s.writing } };
}

/// The sockets of links that are kept.
struct OfKept;

impl<'s, A: Allocator> Lists<Vec<LinkAccount<TcpReader<'s>, TcpWriter, A>, A>, Seen> for OfKept {
    ghost use Rattle.gn_service.specs.Ran.{account_sockets};

    ghost list = { λ links. account_sockets links.items };
}

/// Those of links that nobody keeps.
struct OfUnkept;

impl<'s, A: Allocator> Lists<Unkept<LinkAccount<TcpReader<'s>, TcpWriter, A>>, Seen> for OfUnkept {
    ghost use Rattle.gn_service.specs.Ran.{account_sockets};

    ghost list = { λ links. account_sockets links.items };
}

/// What a run over TCP did, which only contracts see: its history, and what the sockets of its links gave and took. It keeps none of
/// that. A run that has an account makes it, and nobody else does.
pub struct Ran<A: Allocator = Global> {
    history: Snapshot<Unkept<Step<A>>>,
    sockets: Trail<Seen>,
}

impl<A: Allocator> Drop for Ran<A> {
    fn drop(self) {
        let Ran {
            history: _,
            sockets: _,
        } = self;
    }
}

impl<A: Allocator> Model for Ran<A> {
    ghost use Rattle.gn_service.specs.Ran.{Remembered};

    ghost Value = { Remembered A };

    ghost view = { λ r. record { steps = r.history.value.items; sockets = r.sockets.items } };
}

impl<A: Allocator> Ran<A> {
    /// Of the run with this account.
    pub(crate) fn of<'s>(account: &Account<TcpReader<'s>, TcpWriter, A>) -> Self
        ensures { result ≡ ran_of (report_of account.now) }
    {
        let history = Snapshot::of(&account.history);
        let sockets = Trail::of::<Vec<LinkAccount<TcpReader<'s>, TcpWriter, A>, A>, OfKept>(
            &account.links,
        );
        Ran { history, sockets }
    }

    /// Of the run with this account of links that came one after another.
    pub(crate) fn of_any<'s>(account: &OpenAccount<TcpReader<'s>, TcpWriter, A>) -> Self
        ensures { result ≡ ran_of_any account.now }
    {
        let history = Snapshot::of(&account.history);
        let sockets = Trail::of::<Unkept<LinkAccount<TcpReader<'s>, TcpWriter, A>>, OfUnkept>(
            &account.links,
        );
        Ran { history, sockets }
    }
}
