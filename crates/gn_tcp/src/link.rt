//! A link over TCP: accepted or called, and split into its halves.

ghost use Rattle.std.specs.Prelude.{◌≡◌, IfOk, None, OnOk, Some, true};
ghost use Rattle.gn_shake.specs.declared.role.Role.TheVariants.{Accepting, Calling};
ghost use Rattle.gn_tcp.specs.Tcp.{IsLoopback};

use crate::stopper::TcpStopper;
use crate::unmet::Unmet;
use gn_links::{Link, LinkFault};
use gn_shake::Role;
use gn_sockets::{Socket, TcpOrigin, TcpReader, TcpWriter, halves};
use gn_waits::{Brake, TcpCall, Ways};
use std::alloc::{AllocError, Global};
use std::io::ErrorKind;
use std::marker::Model;
use std::net::{Ipv4Addr, Net, SocketAddr, TcpListener, TcpStream};
use std::sync::Wait;
use std::sync::atomic::AtomicBool;
use std::time::Duration;

/// Listens on this port of 127.0.0.1; on one that the system picks where the port is 0.
pub fn listen<N: Net<Listener = TcpListener, Stream = TcpStream>>(
    net: &N,
    port: u16,
) -> Result<TcpListener, LinkFault> {
    match net.bind(SocketAddr::from((Ipv4Addr::LOCALHOST, port))) {
        Ok(listener) => Ok(listener),
        Err(_) => Err(LinkFault),
    }
}

/// A connected socket, how the link over it begins, and where it comes from; or a link whose peer is still called, or never came.
pub struct TcpLink<'s> {
    socket: Socket,
    /// A second handle of the socket, where it was taken before the link is split.
    other: Option<TcpStream>,
    peer: SocketAddr,
    role: Role,
    origin: TcpOrigin,
    ways: Ways<'s>,
}

impl<'s> Drop for TcpLink<'s> {
    fn drop(self) {
        let TcpLink {
            socket: _,
            other: _,
            peer: _,
            role: _,
            origin: _,
            ways: _,
        } = self;
    }
}

impl<'s> Model for TcpLink<'s> {
    ghost use Rattle.gn_tcp.specs.Tcp.{TcpLinked};

    ghost Value = { TcpLinked };

    ghost view = { λ l. record { role = l.role; origin = l.origin; socket = l.socket } };
}

impl TcpLink<'static> {
    /// A link of this role to this peer.
    fn over(socket: Socket, peer: SocketAddr, role: Role, called: Option<SocketAddr>) -> Self
        ensures { result ≡ record { role = role; origin = record { link = 0; called = called }; socket = socket } }
    {
        TcpLink {
            socket,
            other: None,
            peer,
            role,
            origin: TcpOrigin { link: 0, called },
            ways: Ways::PLAIN,
        }
    }

    /// A link whose peer, called or not, never comes. Its bytes are at their end, and its writes fail. The link's number is 0.
    pub fn missing(role: Role, called: Option<SocketAddr>) -> Self
        ensures { (result.role ≡ role) × (result.origin ≡ record { link = 0; called = called }) }
    {
        let peer = match called {
            Some(peer) => peer,
            None => SocketAddr::from((Ipv4Addr::UNSPECIFIED, 0)),
        };
        TcpLink::over(Socket::Missing, peer, role, called)
    }

    /// A link to a peer that is called beside it, and by what it learns how the call ended: its halves wait for that. The link's
    /// number is 0.
    pub fn called(alloc: Global, peer: SocketAddr) -> Result<(Self, TcpCall), AllocError>
        ensures { IfOk result (λ made. (made.0.role ≡ Calling)
            × (made.0.origin ≡ record { link = 0; called = Some peer })) }
    {
        let (call, socket) = TcpCall::new(alloc)?;
        let socket = Socket::Called(socket);
        Ok((TcpLink::over(socket, peer, Role::Calling, Some(peer)), call))
    }

    /// Waits for the next peer that calls, without a time limit. The link's number is 0.
    pub fn accept(listener: &TcpListener) -> Result<Self, LinkFault>
        ensures { IfOk result (λ link. (link.role ≡ Accepting) × (link.origin ≡ record { link = 0; called = None })) }
    {
        match TcpLink::try_accept(listener) {
            Ok(link) => Ok(link),
            Err(_) => Err(LinkFault),
        }
    }

    /// As `accept`, and says why nobody came.
    pub fn try_accept(listener: &TcpListener) -> Result<Self, Unmet>
        ensures { IfOk result (λ link. (link.role ≡ Accepting) × (link.origin ≡ record { link = 0; called = None })) }
    {
        match listener.accept() {
            Ok((stream, peer)) => {
                Ok(TcpLink::over(Socket::Connected(stream), peer, Role::Accepting, None))
            }
            Err(error) => Err(Unmet::of(&error)),
        }
    }

    /// Calls a peer. A peer on another machine isn't called. The link's number is 0.
    pub fn call<N: Net<Listener = TcpListener, Stream = TcpStream>>(
        net: &N,
        peer: SocketAddr,
    ) -> Result<Self, LinkFault>
        ensures called { IfOk result (λ link. (link.role ≡ Calling)
            × (link.origin ≡ record { link = 0; called = Some peer })) }
        ensures near { OnOk result (IsLoopback peer) }
    {
        if !peer.ip().is_loopback() {
            return Err(LinkFault);
        }
        match net.connect(peer) {
            Ok(stream) => Ok(TcpLink::calling(stream, peer)),
            Err(_) => Err(LinkFault),
        }
    }

    /// As `call`, but the peer has to answer within this time.
    pub fn call_within<N: Net<Listener = TcpListener, Stream = TcpStream>>(
        net: &N,
        peer: SocketAddr,
        limit: Duration,
    ) -> Result<Self, LinkFault>
        ensures called { IfOk result (λ link. (link.role ≡ Calling)
            × (link.origin ≡ record { link = 0; called = Some peer })) }
        ensures near { OnOk result (IsLoopback peer) }
    {
        match TcpLink::try_call(net, peer, limit) {
            Ok(link) => Ok(link),
            Err(_) => Err(LinkFault),
        }
    }

    /// As `call_within`, and says why the peer wasn't reached; `InvalidInput`, where it is on another machine. A call that the system joins
    /// with itself was refused.
    pub fn try_call<N: Net<Listener = TcpListener, Stream = TcpStream>>(
        net: &N,
        peer: SocketAddr,
        limit: Duration,
    ) -> Result<Self, Unmet>
        ensures called { IfOk result (λ link. (link.role ≡ Calling)
            × (link.origin ≡ record { link = 0; called = Some peer })) }
        ensures near { OnOk result (IsLoopback peer) }
    {
        if !peer.ip().is_loopback() {
            return Err(Unmet {
                why: ErrorKind::InvalidInput,
                wants_handle: false,
            });
        }
        TcpLink::try_call_far(net, peer, limit)
    }

    /// As `try_call`, but a peer on another machine is called, too.
    pub fn try_call_far<N: Net<Listener = TcpListener, Stream = TcpStream>>(
        net: &N,
        peer: SocketAddr,
        limit: Duration,
    ) -> Result<Self, Unmet>
        ensures { IfOk result (λ link. (link.role ≡ Calling)
            × (link.origin ≡ record { link = 0; called = Some peer })) }
    {
        match net.connect_timeout(peer, limit) {
            Ok(stream) => TcpLink::calling_other(stream, peer),
            Err(error) => Err(Unmet::of(&error)),
        }
    }

    /// A link over a socket that was connected to this peer, unless it is joined with itself: then nobody is there, and the peer refuses.
    fn calling_other(stream: TcpStream, peer: SocketAddr) -> Result<Self, Unmet>
        ensures { IfOk result (λ link. (link.role ≡ Calling)
            × (link.origin ≡ record { link = 0; called = Some peer })) }
    {
        if is_own(&stream, peer) {
            return Err(Unmet {
                why: ErrorKind::ConnectionRefused,
                wants_handle: false,
            });
        }
        Ok(TcpLink::calling(stream, peer))
    }

    /// A link over a socket that was connected to this peer. Its number is given later.
    fn calling(stream: TcpStream, peer: SocketAddr) -> Self
        ensures { (result.role ≡ Calling) × (result.origin ≡ record { link = 0; called = Some peer }) }
    {
        TcpLink::over(Socket::Connected(stream), peer, Role::Calling, Some(peer))
    }
}

/// Whether a socket that was connected to this address is joined with itself. Where nobody listens on a port the system may give that very
/// port to a call of it, and TCP joins the two ends.
fn is_own(stream: &TcpStream, peer: SocketAddr) -> bool {
    match stream.local_addr() {
        Ok(own) => own == peer,
        Err(_) => false,
    }
}

/// A second handle of a link's socket, where it has one and the system gives it.
fn second(socket: &Socket) -> Option<TcpStream> {
    match socket {
        Socket::Connected(stream) => stream.try_clone().ok(),
        Socket::Called(_) | Socket::Missing => None,
    }
}

impl<'s> TcpLink<'s> {
    /// Another handle of the link's socket, by which both of its halves can be ended. It fails where the system gives none.
    pub fn stopper(&self) -> Result<TcpStopper, LinkFault> {
        match second(&self.socket) {
            Some(stream) => Ok(TcpStopper::new(stream)),
            None => Err(LinkFault),
        }
    }

    /// Takes the second handle of the socket that a split needs, where it wasn't taken yet. False where the system gives none.
    pub fn has_handles(&mut self) -> bool
        ensures { self.new ≡ self.old }
    {
        if self.other.is_none() {
            self.other = second(&self.socket);
        }
        self.other.is_some()
    }

    /// The peer's address. Of one that called and never came it is 0.0.0.0:0.
    pub fn peer(&self) -> SocketAddr {
        self.peer
    }

    /// Whether its peer never comes.
    pub fn is_missing(&self) -> bool {
        matches!(self.socket, Socket::Missing)
    }

    /// The link, whose peer is let go at once: as one that never came.
    pub fn without_peer(mut self) -> Self
        ensures { (result.role ≡ self.entry.role) × (result.origin ≡ self.entry.origin) }
    {
        self.socket = Socket::Missing;
        self.other = None;
        self
    }

    /// The link, whose reads and writes fail where they wait for longer than this, or its greeting comes in pieces and takes more
    /// than some two times as long; `None`: they wait for ever. `split` fails where the limit is zero.
    pub fn with_idle(mut self, idle: Option<Duration>) -> Self
        ensures { result ≡ self.entry }
    {
        self.ways = Ways { idle, ..self.ways };
        self
    }

    /// The link, whose bytes end once this is set, whatever its peer still sends; `None`: they end with the peer's. A read that
    /// waits by then ends within a fifth of a second.
    pub fn with_stop(mut self, stop: Option<&'s AtomicBool>) -> Self
        ensures { result ≡ self.entry }
    {
        self.ways = Ways { stop, ..self.ways };
        self
    }

    /// The link, whose reads complete one descriptor at most once this is set, which learns what those of the link in this slot gave;
    /// `None`: they give what there is room for.
    pub fn with_brake(mut self, brake: Option<&'s Brake>, slot: u32) -> Self
        ensures { result ≡ self.entry }
    {
        self.ways = Ways {
            brake,
            slot,
            ..self.ways
        };
        self
    }

    /// The link, which at its end reads and drops what its peer still sends, so that the peer gets all that was written. Somebody
    /// has to shut it by its `stopper` where the peer doesn't end.
    pub fn lingering(mut self) -> Self
        ensures { result ≡ self.entry }
    {
        self.ways.lingers = true;
        self
    }

    /// Answers this call: the halves of its link go on over the socket of this one, within the limits of this one. Where that has no
    /// socket, or its handles can't be had, they learn that the peer never comes; the latter is a failure.
    pub fn answer<R: Wait>(self, rt: &R, call: TcpCall) -> Result<(), LinkFault> {
        let TcpLink {
            socket,
            other,
            peer: _,
            role,
            origin: _,
            ways,
        } = self;
        match socket {
            Socket::Connected(stream) => call.answer(rt, stream, other, role, ways),
            Socket::Called(_) | Socket::Missing => {
                call.give_up(rt);
                Ok(())
            }
        }
    }

    /// The link, which has this number in its run.
    pub fn numbered(mut self, link: u32) -> Self
        ensures { result ≡ record self.entry { origin = record self.entry.origin { link = link } } }
    {
        self.origin.link = link;
        self
    }
}

impl<'s> Link for TcpLink<'s> {
    type Origin = (TcpOrigin, Socket);

    type Reader = TcpReader<'s>;

    type Writer = TcpWriter;

    ghost role_of = { λ l. l.role };

    ghost origin_of = { λ l. (l.origin, l.socket) };

    ghost may_not_split = { λ _. true };

    fn role(&self) -> Role {
        self.role
    }

    /// Fails where the system gives no second handle of the socket, or doesn't take the time limit.
    fn split(self) -> Result<(TcpReader<'s>, TcpWriter), LinkFault> {
        let TcpLink {
            socket,
            other,
            peer,
            role,
            origin,
            ways,
        } = self;
        halves(socket, other, peer, role, origin, ways)
    }
}
