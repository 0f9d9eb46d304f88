//! The pages of commands, and what the values of their options say.
#![tactic(auto)]

mod callers;
mod flags;
mod numbers;
mod page;
mod peers;
mod resuming;
mod retrying;
mod rows;
mod said;
mod servent;
mod site;
mod unread;
mod value;

pub use callers::accept_of;
pub use flags::is_set;
pub use numbers::{NumberOption, asked, limit_asked};
pub use page::{Group, Page, command_of};
pub use peers::{Peer, peers_of};
pub use resuming::resumes_of;
pub use retrying::{Retry, retry_of, retry_with};
pub use rows::{OptionRow, Takes};
pub use said::{Said, push_rows};
pub use servent::{Servent, servent_of};
pub use site::{Site, site_of};
pub use unread::Unread;
