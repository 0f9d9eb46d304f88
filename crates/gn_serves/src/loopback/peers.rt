//! What the peers of a run over the loopback do.

mod acts;

pub(crate) use acts::{hears, sends};
use acts::{
    ANSWERED, CALLED, DRIPS, ECHOES, ENDS, LEAVES, LET_IN, RESETS, SHUTS_READING, hears_the_end,
    plays,
};
use gn_fixtures::PING;
use gn_service::Serving;
use gn_shake::request;
use gn_tcp::listen;
use std::io::{ErrorKind, Read, Write};
use std::net::{Net, Shutdown, SocketAddr, TcpListener, TcpStream};
use std::time::{Clock, Duration};
use std::{io, thread};

/// What the peers of a run do.
#[derive(Clone, Copy)]
pub(crate) enum Peer {
    /// Two clients: the first sends a Ping, which the second hears and sends too.
    Two,
    /// Two clients send in turn, each as soon as it has what the other sent.
    Turns,
    /// A stranger that doesn't greet, and after it a client: the run isn't over when the stranger is let go.
    Stranger,
    /// Is let in, and leaves.
    Leaves,
    /// The run calls it: it sends a Ping, hears the Pong and sends no more.
    Called,
    /// The same, but it listens only after a while.
    CalledLate,
    /// Sends a Ping, hears the Pong, and waits for the end.
    Stays,
    /// The same, but it stops the run.
    Stops,
    /// Sends the same Ping again and again, until it is refused.
    Floods,
    /// Sends its greeting a byte at a time, each sooner after the one before than the time limit.
    Dawdles,
    /// Sends a part of a Ping, and resets: it lets its socket go with the consent unread.
    Resets,
    /// Reads the consent, shuts its reading half, and sends a Ping and its end.
    ShutsReading,
    /// Sends a Ping, a byte at a time.
    Drips,
    /// Reads nothing, while another floods.
    NeverReads,
    /// The same, but the other stops the run.
    Deaf,
    /// Reads nothing until another has stopped the run, and then all that was for it.
    ReadsLate,
    /// Is let in, finds that nobody else may call, and leaves.
    Last,
}

impl Peer {
    /// Whether the run calls it.
    pub(crate) fn is_called(self) -> bool {
        matches!(self, Peer::Called | Peer::CalledLate)
    }

    /// Whether its run is over soon after it. One that was flooded with large packets makes megabytes of receipts first.
    pub(crate) fn is_brief(self) -> bool {
        !matches!(self, Peer::NeverReads | Peer::Deaf | Peer::ReadsLate)
    }
}

/// Where a peer listens late. The ports below 32768 are given to nobody who asks for any port.
pub(crate) const LATE: u16 = 27_418;

/// What a caller waits for longer than 20 seconds fails, and small packets go out at once.
fn limit(caller: &TcpStream) -> io::Result<()> {
    let limit = Some(Duration::from_secs(20));
    caller.set_read_timeout(limit)?;
    caller.set_write_timeout(limit)?;
    caller.set_nodelay(true)
}

/// What a caller of the run begins with.
#[derive(Clone, Copy)]
enum Opening<'a> {
    /// With nothing.
    Nothing,
    /// With its greeting and these bytes.
    Sent(&'a [u8]),
    /// With the same, and its end.
    AllSent(&'a [u8]),
    /// With its greeting. It waits for the first byte that comes, which it doesn't read: it may come in.
    Greeted,
}

/// Greets, and sends these bytes.
fn greet_and_send(client: &mut TcpStream, bytes: &[u8]) -> io::Result<()> {
    client.write_all(request())?;
    client.write_all(bytes)
}

/// Greets, sends these bytes and no more.
fn greet_and_send_all(client: &mut TcpStream, bytes: &[u8]) -> io::Result<()> {
    greet_and_send(client, bytes)?;
    client.shutdown(Shutdown::Write)
}

/// Greets, and waits for the first byte that comes.
fn greet(client: &mut TcpStream) -> io::Result<()> {
    client.write_all(request())?;
    client.peek(&mut [0u8; 1])?;
    Ok(())
}

/// Begins so.
fn begin(client: &mut TcpStream, opening: Opening<'_>) -> io::Result<()> {
    limit(client)?;
    match opening {
        Opening::Nothing => Ok(()),
        Opening::Sent(bytes) => greet_and_send(client, bytes),
        Opening::AllSent(bytes) => greet_and_send_all(client, bytes),
        Opening::Greeted => greet(client),
    }
}

/// A caller of the run that has begun so. What it waits for longer than 20 seconds fails.
fn caller<N: Net<Listener = TcpListener, Stream = TcpStream>>(
    net: &N,
    at: SocketAddr,
    opening: Opening<'_>,
) -> io::Result<TcpStream> {
    let mut caller = TcpStream::connect(net, at)?;
    match begin(&mut caller, opening) {
        Ok(()) => Ok(caller),
        Err(why) => Err(why),
    }
}

/// A client that has greeted and sent these bytes, and waits for nothing.
pub(crate) fn sent<N: Net<Listener = TcpListener, Stream = TcpStream>>(
    net: &N,
    at: SocketAddr,
    bytes: &[u8],
) -> io::Result<TcpStream> {
    caller(net, at, Opening::Sent(bytes))
}

/// The same, which has sent its end, too.
pub(crate) fn all_sent<N: Net<Listener = TcpListener, Stream = TcpStream>>(
    net: &N,
    at: SocketAddr,
    bytes: &[u8],
) -> io::Result<TcpStream> {
    caller(net, at, Opening::AllSent(bytes))
}

/// Two clients whose Pings have one ID: the second one's is a duplicate.
fn two(first: &mut TcpStream, second: &mut TcpStream) -> bool {
    plays(second, LET_IN)
        && plays(first, ANSWERED)
        && plays(second, ECHOES)
        && plays(first, ENDS)
        && hears_the_end(second)
}

/// How often two clients send in turn.
const TURNS: u8 = 100;

/// Whether so many bytes come next, at most 64.
pub(crate) fn takes(peer: &mut TcpStream, count: usize) -> bool {
    let mut taken = [0u8; 64];
    peer.read_exact(&mut taken[..count.min(64)]).is_ok()
}

/// Sends a Ping, and waits until its sender has the Pong and the other its forward.
fn turn(sender: &mut TcpStream, other: &mut TcpStream, number: u8) -> bool {
    sends(sender, &[number; 16])
        && sends(sender, &PING[16..])
        && takes(other, 23)
        && takes(sender, 37)
}

/// Two clients that have read the consent, and send in turn.
fn in_turn(first: &mut TcpStream, second: &mut TcpStream) -> bool {
    for number in 0..TURNS {
        let is_good = if number % 2 == 0 {
            turn(first, second, number)
        } else {
            turn(second, first, number)
        };
        if !is_good {
            return false;
        }
    }
    true
}

/// Whether the system refuses what this peer goes on sending.
fn is_refused(peer: &mut TcpStream) -> bool {
    for _ in 0..8192 {
        if let Err(why) = peer.write(&[7u8; 4096]) {
            return why.kind() != ErrorKind::WouldBlock;
        }
    }
    false
}

/// A stranger, which is let go.
fn is_let_go(stranger: &mut TcpStream) -> bool {
    sends(stranger, b"HTTP") && hears_the_end(stranger) && is_refused(stranger)
}

/// A peer that is called by a run that fails: it hears the request and the end, or the end before that.
fn is_given_up(caller: &mut TcpStream) -> bool {
    let mut heard = [0u8; 22];
    match caller.read_exact(&mut heard) {
        Ok(()) => heard.as_slice() == request() && hears_the_end(caller),
        Err(why) => why.kind() == ErrorKind::UnexpectedEof,
    }
}

/// A peer that a run has called: it consents, or it is given up.
fn hears_out(caller: &mut TcpStream, gives_up: bool) -> bool {
    if gives_up {
        is_given_up(caller)
    } else {
        plays(caller, CALLED)
    }
}

/// A peer that a run calls there, which consents or is given up.
pub(crate) fn called(listener: &TcpListener, gives_up: bool) -> bool {
    match listener.accept() {
        Ok((mut caller, _)) => hears_out(&mut caller, gives_up),
        Err(_) => false,
    }
}

/// One that consents, and listens only after a while.
fn called_late<N: Net<Listener = TcpListener, Stream = TcpStream> + Clock>(net: &N) -> bool {
    thread::sleep(net, Duration::from_millis(200));
    match listen(net, LATE) {
        Ok(listener) => called(&listener, false),
        Err(_) => false,
    }
}

/// Stops the run, where it may be stopped.
fn set_stop(serving: &Serving<'_>) {
    if let Some(stop) = serving.stop {
        stop.set();
    }
}

/// A client that is answered, stops the run or not, and waits for the end.
fn stays(client: &mut TcpStream, serving: &Serving<'_>, stops: bool) -> bool {
    let is_answered = plays(client, ANSWERED);
    if stops {
        set_stop(serving);
    }
    is_answered && hears_the_end(client)
}

/// How often a flooder sends a Ping at most: far more than the buffers between it and the run take.
const MOST_PINGS: u32 = 1_000_000_000;

/// Sends the same Ping again and again, until it is refused.
fn floods(client: &mut TcpStream) -> bool {
    for _ in 0..MOST_PINGS {
        if !sends(client, PING) {
            return true;
        }
    }
    false
}

/// Sends its greeting so slowly that it is refused before that is whole.
fn dawdles<N: Clock>(clock: &N, client: &mut TcpStream) -> bool {
    for byte in request() {
        if !sends(client, &[*byte]) {
            return true;
        }
        thread::sleep(clock, Duration::from_millis(400));
    }
    false
}

/// How often the flooder of a silent peer sends at most. On Linux some 70 large packets fill the sockets of that peer.
const STEPS: u16 = 2000;

/// What comes after the ID of a large Query: kind, TTL, Hops and length, which is 61,443, a speed of 0 and no text.
const QUERY: &[u8] = b"\x80\x07\x00\x03\xf0\x00\x00\x00\x00\x00";

/// What comes after the ID of a Ping that is answered and goes no further: its TTL is 1.
const NEAR_PING: &[u8] = b"\x00\x01\x00\x00\x00\x00\x00";

/// The long tail of a Query.
fn sends_tail(flooder: &mut TcpStream) -> bool {
    for _ in 0..15 {
        if !sends(flooder, &[b'x'; 4096]) {
            return false;
        }
    }
    true
}

/// Whether the answer to a Ping with this ID comes next.
fn hears_pong(flooder: &mut TcpStream, id: &[u8; 16]) -> bool {
    let mut pong = [0u8; 37];
    flooder.read_exact(&mut pong).is_ok() && pong.starts_with(id)
}

/// Sends a large Query and a Ping with this ID, and hears whether the Ping is answered: then both have been routed.
fn are_routed(flooder: &mut TcpStream, id: &[u8; 16]) -> bool {
    sends(flooder, id)
        && sends(flooder, QUERY)
        && sends_tail(flooder)
        && sends(flooder, id)
        && sends(flooder, NEAR_PING)
        && hears_pong(flooder, id)
}

/// The ID of this number.
fn id_of(number: u16) -> [u8; 16] {
    let mut id = [0xb1u8; 16];
    id[..2].copy_from_slice(&number.to_le_bytes());
    id
}

/// Whether the run refuses what the silent peer sends: a Ping, so that it isn't idle.
fn is_silent_refused(silent: &mut TcpStream) -> bool {
    !(sends(silent, &[0xc1; 16]) && sends(silent, NEAR_PING))
}

/// Sends Queries, whose packets the silent peer doesn't read, until its writer has waited too long and it is refused.
/// Between them is time for that writer: packets are dropped where they come faster than it writes.
fn flood<N: Clock>(clock: &N, flooder: &mut TcpStream, silent: &mut TcpStream) -> bool {
    for number in 0..STEPS {
        if !are_routed(flooder, &id_of(number)) {
            return false;
        }
        if is_silent_refused(silent) {
            return true;
        }
        thread::sleep(clock, Duration::from_millis(20));
    }
    false
}

/// How many large Queries are sent to a peer that reads nothing, so that its sockets are full.
const MANY: u16 = 150;

/// Sends more than fills the sockets of another.
fn fills<N: Clock>(clock: &N, flooder: &mut TcpStream) -> bool {
    for number in 0..MANY {
        if !are_routed(flooder, &id_of(number)) {
            return false;
        }
        thread::sleep(clock, Duration::from_millis(10));
    }
    true
}

/// Reads all that comes, to the end.
fn reads_out(client: &mut TcpStream) -> bool {
    let mut room = [0u8; 4096];
    for _ in 0..u64::MAX {
        match client.read(&mut room) {
            Ok(0) => return true,
            Ok(_) => {}
            Err(_) => return false,
        }
    }
    false
}

/// Sends more than fills the sockets of another, stops the run, and hears the end.
fn is_flooded<N: Clock>(clock: &N, flooder: &mut TcpStream, serving: &Serving<'_>) -> bool {
    let is_good = plays(flooder, LET_IN) && fills(clock, flooder);
    set_stop(serving);
    is_good && hears_the_end(flooder)
}

/// Whether nobody can call there.
fn is_closed<N: Net<Listener = TcpListener, Stream = TcpStream>>(net: &N, at: SocketAddr) -> bool {
    match TcpStream::connect(net, at) {
        Ok(_) => false,
        Err(why) => why.kind() == ErrorKind::ConnectionRefused,
    }
}

/// What two clients do that have greeted.
fn play_two<N: Clock>(
    clock: &N,
    first: &mut TcpStream,
    second: &mut TcpStream,
    peer: Peer,
    serving: &Serving<'_>,
) -> bool {
    match peer {
        Peer::Two => two(first, second),
        Peer::Turns => plays(first, LET_IN) && plays(second, LET_IN) && in_turn(first, second),
        Peer::Deaf => is_flooded(clock, second, serving),
        Peer::ReadsLate => is_flooded(clock, second, serving) && reads_out(first),
        _ => plays(second, LET_IN) && flood(clock, second, first) && plays(second, ENDS),
    }
}

/// What a client does that has begun, alone or with a second.
fn play_begun<N: Net<Listener = TcpListener, Stream = TcpStream> + Clock>(
    net: &N,
    at: SocketAddr,
    client: &mut TcpStream,
    peer: Peer,
    serving: &Serving<'_>,
) -> bool {
    match peer {
        Peer::Dawdles => dawdles(net, client),
        Peer::Stranger => is_let_go(client),
        Peer::Leaves => plays(client, LEAVES),
        Peer::Stays => stays(client, serving, false),
        Peer::Stops => stays(client, serving, true),
        Peer::Floods => plays(client, LET_IN) && floods(client),
        Peer::ShutsReading => plays(client, SHUTS_READING),
        Peer::Drips => plays(client, DRIPS),
        Peer::Last => plays(client, LEAVES) && is_closed(net, at),
        Peer::Resets => plays(client, RESETS),
        _ => play_with_second(net, at, client, peer, serving),
    }
}

/// What a client does that has greeted, with a second.
fn play_with_second<N: Net<Listener = TcpListener, Stream = TcpStream> + Clock>(
    net: &N,
    at: SocketAddr,
    client: &mut TcpStream,
    peer: Peer,
    serving: &Serving<'_>,
) -> bool {
    match caller(net, at, Opening::Greeted) {
        Ok(mut second) => play_two(net, client, &mut second, peer, serving),
        Err(_) => false,
    }
}

/// What such a client begins with.
fn opening_of(peer: Peer) -> Opening<'static> {
    match peer {
        Peer::Dawdles | Peer::Stranger => Opening::Nothing,
        _ => Opening::Greeted,
    }
}

/// One or two clients that call the run.
fn play_client<N: Net<Listener = TcpListener, Stream = TcpStream> + Clock>(
    net: &N,
    at: SocketAddr,
    peer: Peer,
    serving: &Serving<'_>,
) -> bool {
    match caller(net, at, opening_of(peer)) {
        Ok(mut client) => play_begun(net, at, &mut client, peer, serving),
        Err(_) => false,
    }
}

/// The peers' part of a run: whether they heard what they had to.
pub(crate) fn play<N: Net<Listener = TcpListener, Stream = TcpStream> + Clock>(
    net: &N,
    at: SocketAddr,
    theirs: &TcpListener,
    peer: Peer,
    serving: &Serving<'_>,
) -> bool {
    match peer {
        Peer::Called => called(theirs, false),
        Peer::CalledLate => called_late(net),
        Peer::Stranger => {
            play_client(net, at, peer, serving) && play_client(net, at, Peer::Leaves, serving)
        }
        _ => play_client(net, at, peer, serving),
    }
}
