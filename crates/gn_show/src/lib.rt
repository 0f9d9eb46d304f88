//! Histories as a reader sees them: each step as a line of plain words or of JSON, each packet as a row, and the counters.
#![tactic(auto)]

mod clock;
mod descriptor_json;
mod flight;
mod form;
mod json_lines;
mod payload_json;
mod plain;
mod plain_descriptor;
mod row_writer;
mod rows;
mod showing;
mod shows;
mod stats;
mod step_json;
mod text;
mod tokens;
mod words;

pub use form::{Form, View};
pub use shows::show;
