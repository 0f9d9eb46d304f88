//! Whether a history is legal, by a search of it that takes no memory.

ghost use Rattle.std.specs.Prelude.{◌≡◌, ◌∷◌, ◌↔◌, IsTrue, Ok, reverse};
ghost use Rattle.gn_rules.specs.Answer.{IsLegal, answer};
ghost use Rattle.gn_rules.specs.Legality.{IsVerdict};

use gn_router::is_answered;
use gn_rules::{Config, Legality, Step};
use gn_search::Search;
use std::alloc::Allocator;

/// Whether a step's reply is the rules' answer after the steps of a legal history.
fn is_right<A: Allocator>(config: &Config, earlier: &[Step<A>], step: &Step<A>) -> bool
    requires { IsLegal config.now (reverse earlier.now) }
    ensures { IsTrue result ↔ (answer config.now (reverse earlier.now) step.now.event ≡ Ok step.now.reply) }
{
    is_answered(&Search::new(config, earlier), step)
}

/// Whether each reply is the rules' answer after the steps before it; else the first step that is wrong. Takes no
/// memory.
pub fn legal<A: Allocator>(config: &Config, steps: &[Step<A>]) -> Legality
    ensures { IsVerdict config.now steps.now result }
{
    for i in 0..steps.len() {
        if !is_right(config, &steps[..i], &steps[i]) {
            return Legality::WrongAt(i as u32);
        }
    }
    Legality::Legal
}

/// Whether a history is legal, as a yes or no.
pub(crate) fn is_legal<A: Allocator>(config: &Config, steps: &[Step<A>]) -> bool
    ensures { IsTrue result → IsLegal config.now (reverse steps.now) }
{
    legal(config, steps) == Legality::Legal
}

/// Whether these steps and then this one are a legal history.
pub(crate) fn is_next<A: Allocator>(config: &Config, past: &[Step<A>], step: &Step<A>) -> bool
    ensures { IsTrue result → IsLegal config.now (step.now ∷ reverse past.now) }
{
    if !is_legal(config, past) {
        return false;
    }
    is_right(config, past, step)
}
