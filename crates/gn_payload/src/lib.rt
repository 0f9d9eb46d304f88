//! The payloads of Gnutella v0.4: their grammar, read and written, and the check of a descriptor.
#![tactic(auto)]

mod checked;
mod hit;
mod hit_result;
mod hit_writer;
mod laws;
mod parts;
mod payload;
mod pong;
mod push;
mod put;
mod query;
mod refusal;

pub use checked::{Checked, Verdict, verdict_on};
pub use hit::{Hit, read_hit, servent_of_hit};
pub use hit_result::{HitResult, Results};
pub use hit_writer::write_hit;
pub use laws::{one_reading, readings_are_grammar, sound_is_read};
pub use payload::{Payload, read_payload};
pub use pong::{Pong, encode_pong, read_pong, write_pong};
pub use push::{Push, read_push, servent_of_push, write_push};
pub use query::{Query, read_query, write_query};
pub use refusal::WriteRefusal;
