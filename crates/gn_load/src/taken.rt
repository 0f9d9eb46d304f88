//! A run over TCP to which so many call, or any number, whose history is written while it goes on.

ghost use Rattle.std.specs.Prelude.{◌≡◌, ◌+◌, ◌≤◌, false, is_some, length, true, None, Some, unwrap_or};
ghost use Rattle.gn_rules.specs.Limits.{most_links};
ghost use Rattle.gn_load.specs.Any.{IsJournalledTaken};

use crate::journalled::serve_journalled;
use crate::journalled_any::{serve_any_journalled, serve_past_journalled};
use crate::serve_halted::ServeHalted;
use gn_io::Sink;
use gn_service::{
    Account, Any, Host, OpenAccount, Parting, Past, Pings, Ran, Serve, TcpReader, TcpWriter, Watch,
};
use std::alloc::{Allocator, Global};

/// How many call a run over TCP: so many in all; `None`: any number, one after another. In that run this one learns of each link as it
/// ends, peers may be called again, the own servent sends these Pings, and so many callers from one address are let in within a minute, as
/// `Any` says.
#[derive(Drop)]
pub struct Taking<'a, T> {
    pub accept: Option<u32>,
    pub leaving: &'a T,
    pub again: bool,
    pub pings: Option<Pings>,
    pub callers_a_minute: Option<u32>,
}

/// The account of such a run: with all of its links, or without those that have ended.
#[derive(Drop)]
pub enum Taken<'s, A: Allocator = Global> {
    /// All were known.
    All(Account<TcpReader<'s>, TcpWriter, A>),
    /// They came and went.
    Any(OpenAccount<TcpReader<'s>, TcpWriter, A>),
}

/// Runs a router as `serve_journalled` does, or as `serve_any_journalled` does, where any number may call.
pub fn serve_taken<'s, R: Host, G: Watch + Sync, T: Parting<Global> + Sync, W: Sink + Send>(
    rt: &R,
    alloc: Global,
    serve: &Serve<'_, 's, G, Taking<'_, T>>,
    sink: &mut W,
) -> Result<(Taken<'s>, Ran), ServeHalted>
    requires few { unwrap_or serve.now.accept.accept 0 + length serve.now.peers.now ≤ most_links }
    ensures { let s = serve.now in
        IsJournalledTaken false s.accept.again (is_some s.accept.pings) s.batch s.config.now s.peers.now s.accept.accept
        s.workers (W.state sink.old) (W.state sink.new) result }
{
    match serve.accept.accept {
        Some(accept) => serve_all_taken(rt, alloc, serve, accept, sink),
        None => serve_any_taken(rt, alloc, &serve.with(any_of(&serve.accept)), sink),
    }
}

/// Runs a router of any number of callers, whoever is to call, as `serve_past_journalled` does.
pub fn serve_resumed<
    's,
    R: Host,
    G: Watch + Sync,
    T: Parting<Global> + Sync,
    P: Past + Send,
    W: Sink + Send,
>(
    rt: &R,
    alloc: Global,
    serve: &Serve<'_, 's, G, Taking<'_, T>>,
    past: P,
    sink: &mut W,
) -> Result<(Taken<'s>, Ran), ServeHalted>
    ensures { let s = serve.now in
        IsJournalledTaken true s.accept.again (is_some s.accept.pings) s.batch s.config.now s.peers.now None
        s.workers (W.state sink.old) (W.state sink.new) result }
{
    serve_past_taken(rt, alloc, &serve.with(any_of(&serve.accept)), past, sink)
}

/// Any number of callers, taken so.
fn any_of<'a, T>(taking: &Taking<'a, T>) -> Any<'a, T>
    ensures { (result.again ≡ taking.now.again) × (result.pings ≡ taking.now.pings) }
{
    Any {
        leaving: taking.leaving,
        again: taking.again,
        pings: taking.pings,
        callers_a_minute: taking.callers_a_minute,
    }
}

/// So of a run to which so many call.
fn serve_all_taken<'s, R: Host, G: Watch + Sync, T, W: Sink + Send>(
    rt: &R,
    alloc: Global,
    serve: &Serve<'_, 's, G, Taking<'_, T>>,
    accept: u32,
    sink: &mut W,
) -> Result<(Taken<'s>, Ran), ServeHalted>
    requires few { accept + length serve.now.peers.now ≤ most_links }
    ensures { let s = serve.now in
        IsJournalledTaken false s.accept.again (is_some s.accept.pings) s.batch s.config.now s.peers.now (Some accept)
        s.workers (W.state sink.old) (W.state sink.new) result }
{
    match serve_journalled(rt, alloc, &serve.with(accept), sink) {
        Ok((account, ran)) => Ok((Taken::All(account), ran)),
        Err(halted) => Err(halted),
    }
}

/// So of one to which any number calls.
fn serve_any_taken<'s, R: Host, G: Watch + Sync, T: Parting<Global> + Sync, W: Sink + Send>(
    rt: &R,
    alloc: Global,
    serve: &Serve<'_, 's, G, Any<'_, T>>,
    sink: &mut W,
) -> Result<(Taken<'s>, Ran), ServeHalted>
    ensures { let s = serve.now in
        IsJournalledTaken false s.accept.again (is_some s.accept.pings) s.batch s.config.now s.peers.now None
        s.workers (W.state sink.old) (W.state sink.new) result }
{
    match serve_any_journalled(rt, alloc, serve, sink) {
        Ok((account, ran)) => Ok((Taken::Any(account), ran)),
        Err(halted) => Err(ServeHalted {
            links: None,
            ..halted
        }),
    }
}

/// So of one that goes on with the steps of before.
fn serve_past_taken<
    's,
    R: Host,
    G: Watch + Sync,
    T: Parting<Global> + Sync,
    P: Past + Send,
    W: Sink + Send,
>(
    rt: &R,
    alloc: Global,
    serve: &Serve<'_, 's, G, Any<'_, T>>,
    past: P,
    sink: &mut W,
) -> Result<(Taken<'s>, Ran), ServeHalted>
    ensures { let s = serve.now in
        IsJournalledTaken true s.accept.again (is_some s.accept.pings) s.batch s.config.now s.peers.now None
        s.workers (W.state sink.old) (W.state sink.new) result }
{
    match serve_past_journalled(rt, alloc, serve, past, sink) {
        Ok((account, ran)) => Ok((Taken::Any(account), ran)),
        Err(halted) => Err(ServeHalted {
            links: None,
            ..halted
        }),
    }
}
