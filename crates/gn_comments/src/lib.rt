//! A text that is written with comments where its lines begin.
#![tactic(auto)]

mod commented;
mod commenter;
mod comments;
mod continued;
mod naming;
mod plain;
mod put;

pub use commented::{Commented, Lent};
pub use commenter::Commenter;
pub use comments::Comments;
pub use continued::{Continued, Standing};
pub use naming::Naming;
