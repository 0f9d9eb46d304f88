//! One line of text: what its fields say, the lines that a text begins with, and each line that is printed.
#![tactic(auto)]

mod address;
mod event;
mod fault;
mod header;
mod line;
mod link;
mod octets;
mod packet;
mod parsed;
mod part;
mod push;
mod refusal;
mod reply;
mod settings;
mod statistics;
mod step;

pub use address::{ip, push_ip};
pub use fault::{CaptureFault, CaptureRefusal};
pub use gn_numbers::{
    Cause, Text, Version, cause_name, counter_name, number, number_u8, number_u16, read_version,
};
pub use header::{push_header, read_header, read_settings};
pub use line::{fields, fields_in, fields_into, first_line, is_skipped, is_word};
pub use link::{push_ended, push_frame_fault, push_greeting_refused};
pub use octets::{guid, hex_bytes};
pub use parsed::{NumberedLine, NumberedLines};
pub use push::{push_hex, push_number};
pub use refusal::push_refusal;
pub use reply::push_reply;
pub use settings::{read_config, read_own};
pub use statistics::push_stats;
pub use step::{push_step, push_step_of};
