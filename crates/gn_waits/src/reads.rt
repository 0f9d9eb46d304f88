//! How a stream is read, as long as the patience for it lasts.

ghost use Rattle.std.specs.Prelude.{◌≡◌, ◌≢◌, ◌≤◌, ◌++◌, length, Err, IfOk, Some};
ghost use Rattle.std.specs.declared.io.ErrorKind.TheVariants.{Interrupted};
ghost use Rattle.std.specs.Io.{ReadsAtMost};
ghost use Rattle.std.specs.Io.KnownBytes.{ReadConsumes, WriteAppends};
ghost use Rattle.gn_links.specs.Halves.{read_by};

use crate::patience::Patience;
use crate::ways::Ways;
use gn_links::LinkFault;
use gn_trail::{Told, read_told};
use std::io::{ErrorKind, Read};
use std::net::TcpStream;
use std::sync::Wait;

/// Reads once, and tells the bytes that came: they are the next ones of the stream.
fn read_once<T: Read>(
    stream: &mut T,
    told: &mut Told,
    buffer: &mut [u8],
) -> Result<usize, ErrorKind>
    ensures bound { ReadsAtMost result buffer.new }
    ensures bytes { ReadConsumes (T.remaining stream.old) (T.remaining stream.new) result buffer.new }
    ensures told { WriteAppends (Some told.old) (Some told.new) result buffer.new }
{
    match read_told(stream, told, buffer) {
        Ok(n) => Ok(n),
        Err(why) => Err(why.kind()),
    }
}

/// Waits for bytes, again where a signal cut the call short, and tells those that came: they are the next ones of the stream.
fn read_some<T: Read, R: Wait>(
    rt: &R,
    stream: &mut T,
    told: &mut Told,
    buffer: &mut [u8],
) -> Result<usize, ErrorKind>
    ensures within { IfOk result (λ n. n ≤ length buffer.old) }
    ensures read { ReadConsumes (T.remaining stream.old) (T.remaining stream.new) result buffer.new }
    ensures again { result ≢ Err Interrupted }
    ensures told { told.new ≡ told.old ++ read_by result buffer.new }
{
    for _ in rt.forever() {
        match read_once(stream, told, buffer) {
            Ok(n) => return Ok(n),
            Err(why) if why == ErrorKind::Interrupted => {}
            Err(why) => return Err(why),
        }
    }
    Err(ErrorKind::Other)
}

/// The same, of a few bytes at most where the brake is set.
fn read_room<R: Wait>(
    rt: &R,
    stream: &mut TcpStream,
    told: &mut Told,
    ways: &Ways<'_>,
    buffer: &mut [u8],
) -> Result<usize, ErrorKind>
    ensures within { IfOk result (λ n. n ≤ length buffer.old) }
    ensures told { told.new ≡ told.old ++ read_by result buffer.new }
{
    let room = ways.room(buffer.len());
    read_some(rt, stream, told, &mut buffer[..room])
}

/// Waits for bytes as long as the patience lasts, and tells those that came. It fails too where the stop was set meanwhile.
fn read_patiently<R: Wait>(
    rt: &R,
    stream: &mut TcpStream,
    told: &mut Told,
    patience: &mut Patience<'_>,
    buffer: &mut [u8],
) -> Result<usize, LinkFault>
    ensures within { IfOk result (λ n. n ≤ length buffer.old) }
    ensures told { told.new ≡ told.old ++ read_by result buffer.new }
{
    for _ in rt.forever() {
        match read_room(rt, stream, told, &patience.ways, buffer) {
            Ok(n) => return Ok(n),
            Err(why) => {
                if !patience.goes_on(stream, why) {
                    return Err(LinkFault);
                }
            }
        }
    }
    Err(LinkFault)
}

/// The same. It gives no bytes once the stop is set.
pub(crate) fn read_unstopped<R: Wait>(
    rt: &R,
    stream: &mut TcpStream,
    told: &mut Told,
    patience: &mut Patience<'_>,
    buffer: &mut [u8],
) -> Result<usize, LinkFault>
    ensures within { IfOk result (λ n. n ≤ length buffer.old) }
    ensures told { told.new ≡ told.old ++ read_by result buffer.new }
{
    if patience.ways.is_stopped() {
        return Ok(0);
    }
    match read_patiently(rt, stream, told, patience, buffer) {
        Err(_) if patience.ways.is_stopped() => Ok(0),
        answer => answer,
    }
}

/// Reads what a peer still sends, and drops it, until the peer ends or somebody shuts the socket. The peer can't be stuck in its
/// sending then, and no byte is left unread, for which the system would throw away what the peer hasn't read.
pub(crate) fn drain<R: Wait>(rt: &R, stream: &mut TcpStream) {
    let mut dropped = [0u8; 4096];
    // whoever shuts the socket ends the wait: no look is needed
    let _ = stream.set_read_timeout(None);
    for _ in rt.forever() {
        if !gives_more(stream, &mut dropped) {
            return;
        }
    }
}

/// Reads once, to drop what comes. Whether more may come.
fn gives_more(stream: &mut TcpStream, dropped: &mut [u8]) -> bool {
    match stream.read(dropped) {
        Ok(n) => n > 0,
        Err(why) => matches!(why.kind(), ErrorKind::Interrupted | ErrorKind::WouldBlock),
    }
}
