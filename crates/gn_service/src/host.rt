//! What a run over TCP wants of the system.

use std::net::{Net, TcpListener, TcpStream};
use std::sync::Wait;
use std::thread::Threads;
use std::time::Clock;

/// A runtime that a run over TCP goes on in: it starts threads, waits, opens sockets, and has a clock and memory.
pub trait Host: Threads
    + Wait
    + Net<Listener = TcpListener, Stream = TcpStream>
    + Clock
    + AllocGlobal
    + Sync {}

impl<
    R: Threads
        + Wait
        + Net<Listener = TcpListener, Stream = TcpStream>
        + Clock
        + AllocGlobal
        + Sync,
> Host for R {}
