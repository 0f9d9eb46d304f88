//! Both ends of a link in one process.

use crate::wanted::a_listener;
use gn_links::{Link, LinkFault, LinkReader, LinkWriter};
use gn_tcp::{TcpLink, TcpReader, TcpWriter, listen};
use std::io::{self, ErrorKind, Read, Write};
use std::net::{Net, Shutdown, SocketAddr, TcpListener, TcpStream};
use std::sync::Wait;
use std::test::Fail;
use std::time::Duration;

/// The halves of a link.
type Halves = (TcpReader<'static>, TcpWriter);

/// How a link is made.
#[derive(Clone, Copy)]
enum Manner {
    /// As any is.
    Usual,
    /// What was written is waited for.
    Lingering,
    /// Its reads wait for a fiftieth of a second at most.
    Hasty,
}

/// The halves of a link that is accepted.
fn answered(listener: &TcpListener, manner: Manner) -> Result<Halves, LinkFault> {
    let link = TcpLink::accept(listener)?;
    let link = match manner {
        Manner::Usual => link,
        Manner::Lingering => link.lingering(),
        Manner::Hasty => link.with_idle(Some(Duration::from_millis(20))),
    };
    link.split()
}

/// A peer that has called there, and whose writes wait for a fifth of a second at most.
fn a_caller<N: Net<Listener = TcpListener, Stream = TcpStream>>(
    net: &N,
    listener: &TcpListener,
) -> io::Result<TcpStream> {
    let peer = TcpStream::connect(net, listener.local_addr()?)?;
    peer.set_write_timeout(Some(Duration::from_millis(200)))?;
    Ok(peer)
}

/// The halves of a link that a listener accepted, and the peer that called it.
#[derive(Drop)]
struct Ends {
    reader: TcpReader<'static>,
    writer: TcpWriter,
    peer: TcpStream,
}

/// Both ends of a link with this peer, who has called.
fn ends_of(listener: &TcpListener, manner: Manner, peer: TcpStream) -> Result<Ends, Fail> {
    match answered(listener, manner) {
        Ok((reader, writer)) => Ok(Ends {
            reader,
            writer,
            peer,
        }),
        Err(_) => Err("a link".into()),
    }
}

/// Both ends of a new link.
fn new_ends<N: Net<Listener = TcpListener, Stream = TcpStream>>(
    net: &N,
    manner: Manner,
) -> Result<Ends, Fail> {
    let listener = a_listener(net)?;
    let peer = a_caller(net, &listener)?;
    ends_of(&listener, manner, peer)
}

/// What a write to a link gives. It has no clause, as the two after it: a test's own proof would carry each of them along.
fn write<R: Wait>(rt: &R, writer: &mut TcpWriter, bytes: &[u8]) -> Result<usize, LinkFault> {
    writer.write(rt, bytes)
}

/// What a read of at most 8 bytes gives.
fn read<R: Wait>(rt: &R, reader: &mut TcpReader<'static>) -> Result<usize, LinkFault> {
    reader.read(rt, &mut [0u8; 8])
}

/// Writes no more.
fn finish<R: Wait>(rt: &R, writer: &mut TcpWriter) {
    writer.finish(rt);
}

/// Whether exactly these bytes come next, at most 8.
fn reads<R: Wait>(rt: &R, reader: &mut TcpReader<'static>, bytes: &[u8]) -> bool {
    let mut room = [0u8; 8];
    let n = bytes.len().min(8);
    reader.read(rt, &mut room[..n]) == Ok(n) && &room[..n] == bytes
}

/// Whether one end writes these bytes, at most 8, and the other reads them.
fn are_carried<R: Wait>(
    rt: &R,
    writer: &mut TcpWriter,
    reader: &mut TcpReader<'static>,
    bytes: &[u8],
) -> bool {
    write(rt, writer, bytes) == Ok(bytes.len()) && reads(rt, reader, bytes)
}

/// Whether two ends of a link carry bytes both ways, and an end that is finished has both readers end.
fn are_linked<R: Wait>(rt: &R, near: &mut Halves, far: &mut Halves) -> bool {
    let are_both_ways = are_carried(rt, &mut near.1, &mut far.0, b"GNU")
        && are_carried(rt, &mut far.1, &mut near.0, b"TELLA");
    finish(rt, &mut near.1);
    are_both_ways && read(rt, &mut far.0) == Ok(0) && read(rt, &mut near.0) == Ok(0)
}

/// The halves of a link that is called there.
fn called<N: Net<Listener = TcpListener, Stream = TcpStream>>(
    net: &N,
    there: SocketAddr,
) -> Result<Halves, LinkFault> {
    TcpLink::call(net, there)?.split()
}

/// Whether a link that is called there and the one that is accepted are linked.
fn is_linked_at<R: Net<Listener = TcpListener, Stream = TcpStream> + Wait>(
    rt: &R,
    listener: &TcpListener,
    there: SocketAddr,
) -> Result<bool, LinkFault> {
    let mut near = called(rt, there)?;
    let mut far = answered(listener, Manner::Usual)?;
    let are_linked = are_linked(rt, &mut near, &mut far);
    drop(far);
    drop(near);
    Ok(are_linked)
}

/// Whether a called link and the one that is accepted are linked.
fn is_linked<R: Net<Listener = TcpListener, Stream = TcpStream> + Wait>(
    rt: &R,
) -> Result<bool, Fail> {
    let listener = a_listener(rt)?;
    let there = listener.local_addr()?;
    Ok(is_linked_at(rt, &listener, there)?)
}

#[test]
fn a_called_link_and_an_accepted_one(rt: HostRuntime) -> Result<(), Fail> {
    assert!(rt; is_linked(&rt)?);
    Ok(())
}

/// Whether so many bytes, fewer than 8, are there to be read.
fn has_waiting(peer: &TcpStream, count: usize) -> bool {
    matches!(peer.peek(&mut [0u8; 8]), Ok(n) if n == count)
}

/// Whether so many bytes, fewer than 8, come next: no byte, where no more come.
fn takes(peer: &mut TcpStream, count: usize) -> bool {
    matches!(peer.read(&mut [0u8; 8]), Ok(n) if n == count)
}

/// Whether bytes reach a peer, which leaves them unread and closes.
fn is_left_unread<R: Wait>(rt: &R, writer: &mut TcpWriter, peer: TcpStream) -> bool {
    let is_left = write(rt, writer, b"unread") == Ok(6) && has_waiting(&peer, 6);
    drop(peer);
    is_left
}

/// Whether a read and then a write fail.
fn fails<R: Wait>(rt: &R, reader: &mut TcpReader<'static>, writer: &mut TcpWriter) -> bool {
    let fails = read(rt, reader) == Err(LinkFault) && write(rt, writer, b"more") == Err(LinkFault);
    finish(rt, writer);
    fails
}

/// Whether a link whose peer leaves bytes unread and closes is reset.
fn is_reset<R: Net<Listener = TcpListener, Stream = TcpStream> + Wait>(
    rt: &R,
) -> Result<bool, Fail> {
    let Ends {
        mut reader,
        mut writer,
        peer,
    } = new_ends(rt, Manner::Usual)?;
    let is_reset = is_left_unread(rt, &mut writer, peer) && fails(rt, &mut reader, &mut writer);
    drop(writer);
    drop(reader);
    Ok(is_reset)
}

/// A peer that leaves bytes unread and closes resets the link: a read and then a write fail, and no signal ends the process.
#[test]
fn a_reset_is_a_fault(rt: HostRuntime) -> Result<(), Fail> {
    assert!(rt; is_reset(&rt)?);
    Ok(())
}

/// Whether the system refuses one of so many writes of a peer, of 4,000 bytes each, and lets none wait.
fn is_refused(peer: &mut TcpStream, writes: u32) -> bool {
    for _ in 0..writes {
        if let Err(why) = peer.write_all(&[7u8; 4000]) {
            return matches!(
                why.kind(),
                ErrorKind::BrokenPipe | ErrorKind::ConnectionReset
            );
        }
    }
    false
}

/// Whether a finished writer lets its peer go, which hears the end and is refused what it sends then.
fn is_let_go<R: Wait>(rt: &R, ends: &mut Ends) -> bool {
    finish(rt, &mut ends.writer);
    takes(&mut ends.peer, 0)
        && read(rt, &mut ends.reader) == Ok(0)
        && is_refused(&mut ends.peer, 4000)
        && write(rt, &mut ends.writer, b"more") == Err(LinkFault)
}

/// The same of a new link.
fn lets_go<R: Net<Listener = TcpListener, Stream = TcpStream> + Wait>(
    rt: &R,
) -> Result<bool, Fail> {
    let mut ends = new_ends(rt, Manner::Usual)?;
    let is_let_go = is_let_go(rt, &mut ends);
    drop(ends);
    Ok(is_let_go)
}

/// What a peer sends after the writer was finished is refused, though the halves are still there; the reader waits no longer.
#[test]
fn a_peer_is_let_go_by_a_finished_writer(rt: HostRuntime) -> Result<(), Fail> {
    assert!(rt; lets_go(&rt)?);
    Ok(())
}

/// Whether the system takes what a peer sends.
fn sends(peer: &mut TcpStream, bytes: &[u8]) -> bool {
    peer.write_all(bytes).is_ok()
}

/// Whether all that is owed to a peer is written, which sends before and after that; and both halves are finished.
fn is_written<R: Wait>(rt: &R, ends: &mut Ends, owed: &[u8]) -> bool {
    let is_sent = sends(&mut ends.peer, b"some");
    let is_written = write(rt, &mut ends.writer, owed) == Ok(owed.len());
    finish(rt, &mut ends.writer);
    let is_more_sent = sends(&mut ends.peer, b"more");
    let has_ended = ends.peer.shutdown(Shutdown::Write).is_ok();
    ends.reader.finish(rt);
    is_sent && is_written && is_more_sent && has_ended
}

/// Whether a peer reads exactly this, and then the end.
fn is_read(peer: &mut TcpStream, owed: &[u8; 100_000]) -> bool {
    let mut room = [0u8; 100_000];
    peer.read_exact(&mut room).is_ok() && room.as_slice() == owed.as_slice() && takes(peer, 0)
}

/// Whether a peer of a new link gets all that is owed to it, and then the end: it goes on sending, and both halves are finished
/// before it reads.
fn gets_all<R: Net<Listener = TcpListener, Stream = TcpStream> + Wait>(
    rt: &R,
) -> Result<bool, Fail> {
    let mut ends = new_ends(rt, Manner::Lingering)?;
    let owed = [7u8; 100_000];
    let gets_all = is_written(rt, &mut ends, &owed) && is_read(&mut ends.peer, &owed);
    drop(ends);
    Ok(gets_all)
}

/// What was written reaches a peer that goes on sending, though both halves are finished before it reads.
#[test]
fn a_peer_that_sends_gets_all(rt: HostRuntime) -> Result<(), Fail> {
    assert!(rt; gets_all(&rt)?);
    Ok(())
}

/// Whether a read fails for which nothing comes in time, and a write doesn't after it.
fn is_waited_for<R: Wait>(rt: &R, ends: &mut Ends) -> bool {
    read(rt, &mut ends.reader) == Err(LinkFault)
        && write(rt, &mut ends.writer, b"GNU") == Ok(3)
        && takes(&mut ends.peer, 3)
}

/// The same of a new link whose reads wait for a fiftieth of a second.
fn waits<R: Net<Listener = TcpListener, Stream = TcpStream> + Wait>(rt: &R) -> Result<bool, Fail> {
    let mut ends = new_ends(rt, Manner::Hasty)?;
    let is_waited_for = is_waited_for(rt, &mut ends);
    drop(ends);
    Ok(is_waited_for)
}

#[test]
fn a_silent_peer_is_waited_for_up_to_a_limit(rt: HostRuntime) -> Result<(), Fail> {
    assert!(rt; waits(&rt)?);
    Ok(())
}

/// Whether somebody listens at this port.
fn is_taken<N: Net<Listener = TcpListener, Stream = TcpStream>>(net: &N, port: u16) -> bool {
    listen(net, port).is_err()
}

/// Whether nobody can be called there.
fn is_not_there<N: Net<Listener = TcpListener, Stream = TcpStream>>(
    net: &N,
    there: SocketAddr,
) -> bool {
    TcpLink::call(net, there).is_err()
}

/// Whether nobody can listen where somebody does, nor be called where nobody listens any more.
fn is_refused_twice<N: Net<Listener = TcpListener, Stream = TcpStream>>(
    net: &N,
) -> Result<bool, Fail> {
    let listener = a_listener(net)?;
    let there = listener.local_addr()?;
    let is_taken = is_taken(net, there.port());
    drop(listener);
    Ok(is_taken && is_not_there(net, there))
}

#[test]
fn a_peer_that_is_not_there(rt: HostRuntime) -> Result<(), Fail> {
    assert!(rt; is_refused_twice(&rt)?);
    Ok(())
}
