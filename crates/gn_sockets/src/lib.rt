//! The two halves of a link over one socket.
#![tactic(auto)]

mod origin;
mod reader;
mod split;
mod writer;

pub use gn_waits::Socket;
pub use origin::TcpOrigin;
pub use reader::TcpReader;
pub use split::halves;
pub use writer::TcpWriter;
