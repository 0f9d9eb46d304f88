//! What a test of sockets can't go on without.

use crate::loopback::peers::sent;
use gn_tcp::listen;
use std::io;
use std::net::{Net, Shutdown, TcpListener, TcpStream};
use std::test::Fail;

/// A listener on this machine, at any port.
pub(crate) fn a_listener<N: Net<Listener = TcpListener, Stream = TcpStream>>(
    net: &N,
) -> Result<TcpListener, Fail> {
    match listen(net, 0) {
        Ok(listener) => Ok(listener),
        Err(_) => Err("a listener".into()),
    }
}

/// A caller of this listener that has sent its greeting, these bytes and, where it ends, no more than that.
pub(crate) fn a_caller<N: Net<Listener = TcpListener, Stream = TcpStream>>(
    net: &N,
    listener: &TcpListener,
    bytes: &[u8],
    ends: bool,
) -> io::Result<TcpStream> {
    let caller = sent(net, listener.local_addr()?, bytes)?;
    if ends {
        caller.shutdown(Shutdown::Write)?;
    }
    Ok(caller)
}

/// A listener, and its first caller.
#[derive(Drop)]
pub(crate) struct Called {
    pub(crate) caller: TcpStream,
    pub(crate) listener: TcpListener,
}

/// A listener with such a caller.
pub(crate) fn a_called_listener<N: Net<Listener = TcpListener, Stream = TcpStream>>(
    net: &N,
    bytes: &[u8],
    ends: bool,
) -> Result<Called, Fail> {
    let listener = a_listener(net)?;
    let caller = a_caller(net, &listener, bytes, ends)?;
    Ok(Called { caller, listener })
}
