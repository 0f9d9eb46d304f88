//! Where the counts of a run are asked for while it goes on.

ghost use Rattle.std.specs.Prelude.{◌≡◌, ◌∷◌, [], Some};
ghost use Rattle.gn_program.specs.Peers.{peer_at};

use crate::serve::ServeOptions;
use crate::serves::listen;
use crate::told::Told;
use gn_links::LinkFault;
use gn_metrics::{Desk, Meters};
use std::hash::RandomState;
use std::net::{Ipv4Addr, Net, SocketAddr, SocketAddrV4, TcpListener, TcpStream};
use std::random::RandomSource;
use std::time::Clock;

/// What is counted of a run that begins now, where that is asked for.
pub(crate) fn meters_of<R: Clock>(rt: &R, serving: &ServeOptions) -> Option<Meters> {
    match serving.metrics {
        Some(_) => Some(Meters::new(rt, serving.numbers.steps)),
        None => None,
    }
}

/// The address at which the counts are asked for.
fn counted_at(port: u16) -> SocketAddr
    ensures { peer_at result ≡ Some (record { ip = 127 ∷ 0 ∷ 0 ∷ 1 ∷ []; port = port }) }
{
    SocketAddr::V4(SocketAddrV4::new(Ipv4Addr::LOCALHOST, port))
}

/// Where the counts are asked for, where they are anywhere. What the system said of the port, where that fails, stays in `told`.
pub(crate) fn desk_of<R: Net<Listener = TcpListener, Stream = TcpStream> + RandomSource>(
    rt: &R,
    serving: &ServeOptions,
    told: &mut Told,
) -> Result<Option<Desk>, LinkFault> {
    let Some(port) = serving.metrics else {
        return Ok(None);
    };
    let listener = listen(rt, counted_at(port), told)?;
    match RandomState::new(rt) {
        Ok(keys) => Ok(Some(Desk::new(listener, keys)?)),
        Err(_) => Err(LinkFault),
    }
}
