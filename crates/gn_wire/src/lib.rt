//! Descriptors of Gnutella v0.4: their kinds, their header and their encoding.
#![tactic(auto)]

mod append;
mod descriptor;
mod header;
mod key;
mod kind;
mod laws;

pub use append::whole_or_none;
pub use descriptor::Descriptor;
pub use header::{FrameFault, HEADER_BYTES, Header, length_fault, read_header, write_header};
pub use key::Key;
pub use kind::{Guid, Kind};
pub use laws::{encodings_part, headers_return, same_is_equal};
