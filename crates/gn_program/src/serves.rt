//! A router that serves, as a command line asks for it.

ghost use Rattle.std.specs.Prelude.{◌≡◌, ◌⊎◌, ◌*◌, ◌+◌, ◌<◌, ◌≤◌, is_some, length, true, unwrap_or, IfErr, IfNone, IfOk, IfSome};
ghost use Rattle.std.specs.Option.{IsSomeAnd};
ghost use Rattle.std.specs.Bool.{then_some};
ghost use Rattle.std.specs.Duration.{as_nanos};
ghost use Rattle.gn_io.specs.Streams.{SinkState};
ghost use Rattle.gn_load.specs.Any.{IsJournalledTaken};
ghost use Rattle.gn_program.specs.Served.{halted_served, served_by};
ghost use Rattle.gn_program.specs.Serves.{HasServed, IsIdOf, IsServing, IsWritten, has_comments};
ghost use Rattle.gn_program.specs.Limits.{IsLimit, IsStopOf, calls_again, goes_on, may_stop, seconds_of};
ghost use Rattle.gn_program.specs.Peers.{AreAt, IsHere};
ghost use Rattle.gn_rules.specs.Limits.{most_links};
ghost use Rattle.gn_start.specs.declared.fault.RunFault.TheVariants.{Listen, NoMemory};
ghost use Rattle.gn_words.specs.Options.{calls_far};
ghost use Rattle.gn_words.specs.declared.servent.Servent.TheVariants.{Random};

use crate::before::Reread;
use crate::calls::Calls;
use crate::eof::stop_at_eof;
use crate::leavings::Leavings;
use crate::reports::{write_account, write_stats, write_stopped};
use crate::running::Running;
use crate::scraping::desk_of;
use crate::serve::ServeOptions;
use crate::text::write_text;
use crate::told::Told;
use gn_io::Sink;
use gn_links::{LinkFault, Watch};
use gn_load::{ServeFault, ServeHalted, Taken, Taking};
use gn_metrics::Desk;
use gn_report::LinkTally;
use gn_rules::{Config, Own};
use gn_service::{Batch, Host, Parting, Pings, Ran, Serve, Serving, Stop};
use gn_tcp::Unmet;
use gn_threads::RunFault;
use gn_wire::Guid;
use gn_words::{Peer, Retry, Servent};
use std::alloc::{AllocError, Global};
use std::fmt::{Display, Formatter, Write};
use std::io::StdinLock;
use std::net::{Ipv4Addr, Net, SocketAddr, SocketAddrV4, TcpListener, TcpStream};
use std::random::RandomSource;
use std::sync::Arc;
use std::thread::Threads;
use std::time::{Clock, Duration, SystemTime, UNIX_EPOCH};
use std::{fmt, io};

/// The line that says that the router listens on this port.
#[derive(Clone, Copy)]
struct Listening(u16);

impl Display for Listening {
    fn fmt<W: Write>(&self, f: &mut Formatter<W>) -> fmt::Result {
        writeln!(f, "listening {}", self.0)
    }
}

/// The ID of the servent that is asked for; none, where it has to be drawn and the system gives no random bytes.
pub(crate) fn id_of<R: RandomSource>(rt: &R, servent: Servent) -> Option<Guid>
    ensures id { IfSome result (IsIdOf servent) }
    ensures none { IfNone result (servent ≡ Random) }
{
    match servent {
        Servent::Given(id) => Some(id),
        Servent::Random => {
            let mut bytes = [0u8; 16];
            match rt.fill_bytes(&mut bytes) {
                Ok(()) => Some(Guid(bytes)),
                Err(_) => None,
            }
        }
    }
}

/// The configuration of a router that serves: its own servent has this ID, and is where the options say and shares what they say.
fn settings(serving: &ServeOptions, id: Guid) -> Config
    requires { IsIdOf serving.now.servent id }
    ensures { IsServing serving.now result }
{
    let own = Own {
        servent: id,
        ip: serving.site.address,
        port: serving.port,
        files: serving.files,
        kbytes: serving.kilobytes,
    };
    Config::with(serving.numbers, own)
}

/// The addresses of peers, in order.
fn addresses(alloc: Global, peers: &[Peer]) -> Result<Vec<SocketAddr>, AllocError>
    ensures many { IfOk result (λ addresses. length addresses.items ≡ length peers.now) }
    ensures each { IfOk result (λ addresses. AreAt peers.now addresses.items) }
{
    let mut addresses = Vec::new(alloc);
    for peer in peers {
        let address = SocketAddrV4::new(Ipv4Addr::from(peer.ip), peer.port);
        addresses.push(SocketAddr::V4(address))?;
    }
    Ok(addresses)
}

/// The time limit of so many seconds, where there is one.
fn limit(seconds: Option<u32>) -> Option<Duration>
    ensures { IsLimit seconds result }
{
    Some(Duration::from_secs(u64::from(seconds?)))
}

/// The seconds for which a peer that doesn't listen is called again, where they are limited.
fn seconds_of(retry: Retry) -> Option<u32>
    ensures { result ≡ seconds_of retry }
{
    match retry {
        Retry::For(seconds) => Some(seconds),
        Retry::Never | Retry::Always => None,
    }
}

/// Whether its peers are called for as long as the router runs.
pub(crate) fn calls_again(serving: &ServeOptions) -> bool
    ensures { result ≡ calls_again serving.now }
{
    matches!(serving.retry, Retry::Always)
}

/// Whether anything but its peers stops the router.
fn may_stop(serving: &ServeOptions) -> bool
    ensures { result ≡ may_stop serving.now }
{
    serving.seconds.is_some() || serving.early || serving.until_eof
}

/// How long the router goes on and waits for its peers, and how long one may flood it, and whether it calls other machines.
fn limits<'s>(serving: &ServeOptions, stop: &'s Stop) -> Serving<'s>
    ensures idle { IsLimit serving.now.idle result.idle }
    ensures retry { IsLimit (seconds_of serving.now.retry) result.retry }
    ensures flood { IsLimit serving.now.flood result.flood }
    ensures grace { IsSomeAnd result.grace (λ time. as_nanos time ≡ serving.now.grace * 1_000_000_000) }
    ensures stop { result.stop ≡ then_some (may_stop serving.now) stop.entry }
    ensures kept { result.is_kept ≡ true }
    ensures far { result.calls_far ≡ calls_far serving.now.site }
{
    Serving {
        idle: limit(serving.idle),
        retry: limit(seconds_of(serving.retry)),
        grace: Some(Duration::from_secs(serving.grace as u64)),
        flood: limit(serving.flood),
        stop: may_stop(serving).then_some(stop),
        is_kept: true,
        calls_far: serving.site.calls_far(),
    }
}

/// The batch of so many packets.
pub(crate) fn batch_of(many: u32) -> Batch
    requires { 0 < many }
    ensures { result ≡ many }
{
    match Batch::of(many) {
        Some(batch) => batch,
        None => unreachable!(),
    }
}

/// By what the router is stopped before its peers end it. Where that is the end of standard input, it is read from now on.
fn stop_of<R: Threads + Input<Reader = StdinLock<'static>>>(
    rt: &R,
    alloc: Global,
    serving: &ServeOptions,
) -> Result<Arc<Stop, Global>, AllocError>
    ensures { IfOk result (λ stop. IsStopOf serving.now stop.value) }
{
    let stop = Arc::new(alloc, Stop::new(limit(serving.seconds), serving.early))?;
    if serving.until_eof {
        stop_at_eof(rt, &stop)?;
    }
    Ok(stop)
}

/// A listener at this address, of which a run can take the second handle that it needs.
fn bound<N: Net<Listener = TcpListener, Stream = TcpStream>>(
    net: &N,
    here: SocketAddr,
) -> io::Result<TcpListener> {
    let listener = net.bind(here)?;
    let _ = listener.try_clone()?;
    Ok(listener)
}

/// The address at which the router listens.
fn here(serving: &ServeOptions) -> SocketAddr
    ensures { IsHere serving.now result }
{
    let ip = Ipv4Addr::from(serving.site.bind);
    SocketAddr::V4(SocketAddrV4::new(ip, serving.port))
}

/// Listens at this address. What the system said of it, where that fails, stays in `told`.
pub(crate) fn listen<N: Net<Listener = TcpListener, Stream = TcpStream>>(
    net: &N,
    here: SocketAddr,
    told: &mut Told,
) -> Result<TcpListener, LinkFault> {
    match bound(net, here) {
        Ok(listener) => Ok(listener),
        Err(why) => {
            *told = Told::Listen(here, Unmet::of(&why));
            Err(LinkFault)
        }
    }
}

/// Writes what became of the links of a run, where that is asked for and wasn't said as they ended, and lets go of its account.
fn report_ended<G: Watch, F: Sink>(
    alloc: Global,
    serving: &ServeOptions,
    watch: &G,
    taken: Taken<'_>,
    faults: &mut F,
) {
    if serving.report {
        match &taken {
            Taken::All(account) => write_account(alloc, faults, account),
            Taken::Any(account) => write_stats(alloc, faults, &account.stats),
        }
    }
    watch.leave(taken);
}

/// Writes what became of the links of a run that stopped, where that is to be said and known, and lets go of it.
fn report_stopped<G: Watch, F: Sink>(
    watch: &G,
    peers: &[SocketAddr],
    links: Option<Vec<LinkTally>>,
    are_said: bool,
    faults: &mut F,
) {
    if let Some(links) = &links
        && are_said
    {
        write_stopped(faults, peers, links);
    }
    watch.leave(links);
}

/// The ID of the first Ping of a router of this ID that starts now: others than those of its earlier runs.
fn first_ping<R: Clock>(rt: &R, id: Guid) -> Guid {
    let Ok(now) = SystemTime::now(rt) else {
        return id;
    };
    let Ok(since) = now.duration_since(UNIX_EPOCH) else {
        return id;
    };
    let Guid(mut bytes) = id;
    let [_, _, _, _, a, b, c, d] = since.as_secs().to_be_bytes();
    bytes[8] ^= a;
    bytes[9] ^= b;
    bytes[10] ^= c;
    bytes[11] ^= d;
    Guid(bytes)
}

/// The Pings that the own servent sends, where it is asked for any.
fn pings<R: Clock>(rt: &R, serving: &ServeOptions, id: Guid) -> Option<Pings>
    ensures { is_some result ≡ is_some serving.now.ping }
{
    match serving.ping {
        Some(seconds) => Some(Pings {
            every: Duration::from_secs(u64::from(seconds)),
            first: first_ping(rt, id),
        }),
        None => None,
    }
}

/// How many call the router, who learns of each link as it ends where any number does, whether its peers are called again then, the own
/// servent's Pings, and how many of one address are let in within a minute.
fn taking<'a, R: Clock, T>(
    rt: &R,
    serving: &ServeOptions,
    id: Guid,
    leaving: &'a T,
) -> Taking<'a, T>
    ensures accept { result.accept ≡ serving.now.accept }
    ensures again { result.again ≡ calls_again serving.now }
    ensures pings { is_some result.pings ≡ is_some serving.now.ping }
    ensures rate { result.callers_a_minute ≡ serving.now.callers_a_minute }
{
    Taking {
        accept: serving.accept,
        leaving,
        again: calls_again(serving),
        pings: pings(rt, serving, id),
        callers_a_minute: serving.callers_a_minute,
    }
}

/// Runs the router, and writes its history while it runs, or what comes behind the one that it goes on with. Where the counts are asked
/// for, who asks is answered beside it.
fn run_on<
    's,
    R: Host + Input<Reader = StdinLock<'static>>,
    G: Watch + Sync,
    T: Parting<Global> + Sync,
    W: Sink + Send,
>(
    rt: &R,
    alloc: Global,
    serve: &Serve<'_, 's, Calls<'_, G>, Taking<'_, T>>,
    serving: &ServeOptions,
    writer: &mut W,
    desk: Option<&Desk>,
    reread: &Reread,
) -> Result<(Taken<'s>, Ran), ServeHalted>
    requires few { unwrap_or serve.now.accept.accept 0 + length serve.now.peers.now ≤ most_links }
    requires accept { serve.now.accept.accept ≡ serving.now.accept }
    ensures { let s = serve.now in (all : SinkState)
        × IsWritten (goes_on serving.now) (has_comments serving.now) (W.state writer.old) all (W.state writer.new)
        × IsJournalledTaken (goes_on serving.now) s.accept.again (is_some s.accept.pings) s.batch s.config.now
        s.peers.now s.accept.accept s.workers (W.state writer.old) all result }
{
    let router = Running {
        rt,
        alloc,
        serve,
        serving,
        reread,
    };
    router.run_scraped(desk, writer)
}

/// What a router serves with: what it is, whom it calls and by what it is stopped, where it is called and asked for its counts, and what
/// becomes known of the history that it goes on with.
#[derive(Drop)]
struct Prepared {
    config: Config,
    peers: Vec<SocketAddr>,
    stop: Arc<Stop, Global>,
    listener: TcpListener,
    desk: Option<Desk>,
    reread: Reread,
}

/// What a router of this configuration serves with, once it listens. What the system said of a port, where that fails, stays in `told`.
fn prepare<
    R: Threads
        + Net<Listener = TcpListener, Stream = TcpStream>
        + Input<Reader = StdinLock<'static>>
        + RandomSource,
>(
    rt: &R,
    alloc: Global,
    serving: &ServeOptions,
    config: Config,
    told: &mut Told,
) -> Result<Prepared, RunFault>
    ensures config { IfOk result (λ prepared. prepared.config ≡ config) }
    ensures peers { IfOk result (λ prepared. AreAt serving.now.peers prepared.peers.items) }
    ensures fault { IfErr result (λ fault. (fault ≡ NoMemory) ⊎ (fault ≡ Listen)) }
{
    let peers = addresses(alloc, &serving.peers)?;
    let stop = stop_of(rt, alloc, serving)?;
    let Ok(listener) = listen(rt, here(serving), told) else {
        return Err(RunFault::Listen);
    };
    let Ok(desk) = desk_of(rt, serving, told) else {
        return Err(RunFault::Listen);
    };
    Ok(Prepared {
        config,
        peers,
        stop,
        listener,
        desk,
        reread: Reread::new(),
    })
}

/// Runs the router, writes its history while it runs, and answers who asks for its counts. It is watched as it runs, by `calls`.
fn run_prepared<
    's,
    R: Host + Input<Reader = StdinLock<'static>>,
    G: Watch + Sync,
    W: Sink + Send,
    F: Sink + Send,
>(
    rt: &R,
    alloc: Global,
    serving: &ServeOptions,
    prepared: &'s Prepared,
    calls: &Calls<'_, G>,
    writer: &mut W,
    faults: &mut F,
) -> Result<(Taken<'s>, Ran), ServeHalted>
    requires peers { AreAt serving.now.peers prepared.now.peers.items }
    ensures { let s = serving.now in (all : SinkState)
        × IsWritten (goes_on s) (has_comments s) (W.state writer.old) all (W.state writer.new)
        × IsJournalledTaken (goes_on s) (calls_again s) (is_some s.ping) s.batch prepared.now.config
        prepared.now.peers.items s.accept s.workers (W.state writer.old) all result }
{
    let leavings = Leavings::new(rt, faults, serving.report);
    let asked = Serve {
        listener: &prepared.listener,
        config: &prepared.config,
        peers: &prepared.peers,
        accept: taking(rt, serving, prepared.config.own.servent, &leavings),
        workers: serving.workers,
        limits: limits(serving, &prepared.stop),
        watch: calls,
        batch: batch_of(serving.batch),
    };
    let desk = prepared.desk.as_ref();
    run_on(rt, alloc, &asked, serving, writer, desk, &prepared.reread)
}

/// What a serve answers, and what is remembered of its run.
#[derive(Drop)]
pub(crate) struct Served {
    pub(crate) answer: Result<(), ServeFault>,
    pub(crate) ran: Option<Ran>,
}

/// What a run that stopped comes to. It is written what became of its links, where that is asked for and its history is known.
fn stopped<G: Watch, F: Sink>(
    serving: &ServeOptions,
    watch: &G,
    peers: &[SocketAddr],
    halted: ServeHalted,
    faults: &mut F,
) -> Served
    ensures { result ≡ halted_served halted }
{
    let ServeHalted {
        fault,
        history,
        links,
        ran,
    } = halted;
    let are_said = serving.report && history.is_some();
    report_stopped(watch, peers, links, are_said, faults);
    Served {
        answer: Err(fault),
        ran,
    }
}

/// What a run comes to. It is written what became of its links, where that is asked for.
fn ended<G: Watch, F: Sink>(
    alloc: Global,
    serving: &ServeOptions,
    watch: &G,
    peers: &[SocketAddr],
    answer: Result<(Taken<'_>, Ran), ServeHalted>,
    faults: &mut F,
) -> Served
    ensures { result ≡ served_by answer.entry }
{
    match answer {
        Ok((taken, ran)) => {
            report_ended(alloc, serving, watch, taken, faults);
            Served {
                answer: Ok(()),
                ran: Some(ran),
            }
        }
        Err(halted) => stopped(serving, watch, peers, halted, faults),
    }
}

/// Listens, says so with the faults, runs the router, writes its history while it runs, answers who asks for its counts, and then writes what
/// became of its links with the faults, where that is asked for. It is watched as it runs, by `calls`. What the system said of a port
/// stays in `told`.
pub(crate) fn serve<
    R: Host + Input<Reader = StdinLock<'static>> + RandomSource,
    G: Watch + Sync,
    W: Sink + Send,
    F: Sink + Send,
>(
    rt: &R,
    alloc: Global,
    serving: &ServeOptions,
    id: Guid,
    calls: &Calls<'_, G>,
    writer: &mut W,
    faults: &mut F,
    told: &mut Told,
) -> Served
    requires id { IsIdOf serving.now.servent id }
    ensures { HasServed serving.now (W.state writer.old) (W.state writer.new) result.answer result.ran }
{
    let config = settings(serving, id);
    let prepared = match prepare(rt, alloc, serving, config, told) {
        Ok(prepared) => prepared,
        Err(fault) => {
            return Served {
                answer: Err(ServeFault::Run(fault)),
                ran: None,
            };
        }
    };
    let _ = write_text(faults, Listening(serving.port));
    let answer = run_prepared(rt, alloc, serving, &prepared, calls, writer, faults);
    prepared.reread.tell(told);
    ended(alloc, serving, calls, &prepared.peers, answer, faults)
}
