//! How the halves of a link over TCP wait: for a call's answer, for bytes, and for a stream that takes some.
#![tactic(auto)]

mod brake;
mod call;
mod handle;
mod handles;
mod patience;
mod reads;
mod socket;
mod ways;
mod writes;

pub use brake::Brake;
pub use call::{Call, TcpCall};
pub use handle::Handle;
pub use patience::Patience;
pub use socket::Socket;
pub use ways::Ways;
