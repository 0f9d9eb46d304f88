//! Both texts whole: captures, which say what links deliver and what the local servent does, and histories, written and
//! read.
#![tactic(auto)]

mod body;
mod capture;
mod event;
mod event_lines;
mod fitting;
mod history;
mod history_written;
mod laws;
mod line;
mod packet;
mod query_line;
mod read_line;
mod refusal;
mod reply;
mod sends;
mod step;

pub use capture::{Capture, read_capture};
pub use gn_text::{CaptureFault, CaptureRefusal, Cause};
pub use history::{HistorySteps, open_history, read_history, read_history_line};
pub use history_written::write_history;
pub use laws::{read_is_encoded, written_is_read};
pub use line::{Line, LocalRequest, PieceBytes};
