//! Laws of paths: an answer goes only back along the path of its request, in one router, over a link, and through a network.
#![tactic(auto)]

mod networks;
mod paths;

pub use networks::{answers_came_back, answers_cross_back, answers_follow, floods_end};
pub use paths::{
    answers_go_back, life_falls, not_sent_again, nothing_from_nowhere, pushes_go_back,
    requests_spread,
};
