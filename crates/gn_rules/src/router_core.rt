//! What every router promises.

ghost use Rattle.std.specs.Prelude.{◌≡◌, ◌↔◌, ◌∷◌, ◌++◌, [], List, Ok, Err, length, reverse, IfErr, IfOk, IsTrue, OnErr, OnOk};
ghost use Rattle.gn_rules.specs.Answer.{Finds, IsLegal, answer, checked_answer, reply_of};
ghost use Rattle.gn_rules.specs.Flight.{flying, flying_from};
ghost use Rattle.gn_rules.specs.History.{live};
ghost use Rattle.gn_rules.specs.Output.{waiting};
ghost use Rattle.gn_rules.specs.Statistics.{stats_of};
ghost use Rattle.gn_rules.specs.declared.config.Config.{Config};
ghost use Rattle.gn_rules.specs.declared.event.Event.TheVariants.{Route};
ghost use Rattle.gn_rules.specs.declared.receipt.Step.{Step};
ghost use Rattle.gn_rules.specs.declared.reply.Reply.{Reply};

use crate::config::Config;
use crate::event::{ConnId, Event, Ticket};
use crate::excerpt::Excerpt;
use crate::receipt::{Receipt, Step};
use crate::refusal::Refusal;
use crate::reply::Reply;
use crate::statistics::Stats;
use gn_payload::Checked;
use std::alloc::{AllocError, Allocator};

/// A router: its history grows by one step a call, and each reply is the one that the rules give after the steps before it.
pub trait RouterCore<A: Allocator + Copy> {
    /// Its configuration.
    ghost settings: { Self → Config };

    /// Its history, in order.
    ghost steps: { Self → List (Step A) };

    /// The answer to an event, which is no step: a reply, the rules' refusal, or out of memory where the rules give a reply.
    fn answer_to(&self, event: &Event<A>) -> Result<Reply<A>, Refusal>
        ensures { Finds result (answer (settings self.now) (reverse (steps self.now)) event.now) };

    /// Answers an event. A refusal is no step and changes nothing; out of memory is the last, and comes only where the
    /// rules give a reply.
    fn apply(&mut self, actor: u32, event: &Event<A>) -> Result<Receipt<A>, Refusal>
        ensures answer { Finds (reply_of result) (answer (settings self.old) (reverse (steps self.old)) event.now) }
        ensures step { IfOk result (λ receipt. steps self.new
            ≡ steps self.old ++ record { actor = actor; event = event.now; reply = receipt.reply } ∷ []) }
        ensures index { IfOk result (λ receipt. receipt.index ≡ length (steps self.old)) }
        ensures event { IfOk result (λ receipt. receipt.event ≡ event.now) }
        ensures err { OnErr result (steps self.new ≡ steps self.old) }
        ensures settings { settings self.new ≡ settings self.old };

    /// As `apply`, with the event for keeps and without a receipt: where it is answered, its step is the last of the history,
    /// and what stands in the event's place is another. A refusal leaves the event where it was.
    fn enter(&mut self, actor: u32, event: &mut Event<A>) -> Result<(), Refusal>
        ensures step { OnOk result ((reply : Reply A)
            × (answer (settings self.old) (reverse (steps self.old)) event.old ≡ Ok reply)
            × (steps self.new ≡ steps self.old ++ record { actor = actor; event = event.old; reply = reply } ∷ [])) }
        ensures refusal { IfErr result (λ refusal.
            Finds (Err refusal) (answer (settings self.old) (reverse (steps self.old)) event.old)) }
        ensures err { OnErr result (steps self.new ≡ steps self.old) }
        ensures kept { OnErr result (event.new ≡ event.old) }
        ensures settings { settings self.new ≡ settings self.old };

    /// Whether a step's reply is the rules' answer to its event. Takes no memory.
    fn is_answered(&self, step: &Step<A>) -> bool
        ensures { IsTrue result
            ↔ (answer (settings self.now) (reverse (steps self.now)) step.now.event ≡ Ok step.now.reply) };

    /// Adds a step whose reply is the rules' answer to its event, and keeps it: what stands in its place then is another. An
    /// `Err` is out of memory, and leaves the history as it was and the step where it was.
    fn add(&mut self, step: &mut Step<A>) -> Result<(), AllocError>
        requires { answer (settings self.old) (reverse (steps self.old)) step.old.event ≡ Ok step.old.reply }
        ensures step { OnOk result (steps self.new ≡ steps self.old ++ step.old ∷ []) }
        ensures err { OnErr result (steps self.new ≡ steps self.old) }
        ensures kept { OnErr result (step.new ≡ step.old) }
        ensures settings { settings self.new ≡ settings self.old };

    /// As `apply` of a Route, with the descriptor's payload checked beforehand. Where the descriptor isn't the one that was
    /// admitted under the ticket, it is refused as strange.
    fn route(
        &mut self,
        actor: u32,
        ticket: Ticket,
        checked: &Checked<A>,
    ) -> Result<Receipt<A>, Refusal>
        ensures answer { Finds (reply_of result)
            (checked_answer (settings self.old) (reverse (steps self.old)) ticket checked.now) }
        ensures step { IfOk result (λ receipt. steps self.new
            ≡ steps self.old ++ record { actor = actor; event = Route ticket; reply = receipt.reply } ∷ []) }
        ensures index { IfOk result (λ receipt. receipt.index ≡ length (steps self.old)) }
        ensures event { IfOk result (λ receipt. receipt.event ≡ Route ticket) }
        ensures err { OnErr result (steps self.new ≡ steps self.old) }
        ensures settings { settings self.new ≡ settings self.old };

    /// As `route`, without a receipt: its caller gets an excerpt of the reply.
    fn pass<E: Excerpt<A>>(
        &mut self,
        actor: u32,
        ticket: Ticket,
        checked: &Checked<A>,
    ) -> Result<E, Refusal>
        ensures step { OnOk result ((reply : Reply A)
            × (checked_answer (settings self.old) (reverse (steps self.old)) ticket checked.now ≡ Ok reply)
            × (steps self.new ≡ steps self.old ++ record { actor = actor; event = Route ticket; reply = reply } ∷ [])) }
        ensures told { IfOk result (λ told. (reply : Reply A)
            → checked_answer (settings self.old) (reverse (steps self.old)) ticket checked.now ≡ Ok reply
            → E.tells told reply) }
        ensures refusal { IfErr result (λ refusal. Finds (Err refusal)
            (checked_answer (settings self.old) (reverse (steps self.old)) ticket checked.now)) }
        ensures err { OnErr result (steps self.new ≡ steps self.old) }
        ensures settings { settings self.new ≡ settings self.old }
    {
        let receipt = self.route(actor, ticket, checked)?;
        Ok(E::of(&receipt.reply))
    }

    /// The configuration that it was made with.
    fn config(&self) -> &Config
        ensures { result.now ≡ settings self.now };

    /// How many steps there are.
    fn step_count(&self) -> u32
        ensures { result ≡ length (steps self.now) };

    /// Each reply is the rules' answer after the steps before it.
    fn is_legal(&self)
        ensures { IsLegal (settings self.now) (reverse (steps self.now)) };

    /// How many steps had each reply.
    fn stats(&self) -> Stats
        ensures { result ≡ stats_of (reverse (steps self.now)) };

    /// How many tickets are in flight.
    fn flights(&self) -> u32
        ensures { result ≡ length (flying (reverse (steps self.now))) };

    /// How many tickets that the connection admitted are in flight, whether or not it is still live. Takes no memory.
    fn flights_of(&self, c: ConnId) -> u32
        ensures { result ≡ length (flying_from (reverse (steps self.now)) c) };

    /// Whether the connection is live.
    fn is_live(&self, c: ConnId) -> bool
        ensures { result ≡ live (reverse (steps self.now)) c };

    /// How many packets wait for the connection: none where it isn't live.
    fn waiting(&self, c: ConnId) -> u32
        ensures { result ≡ waiting (reverse (steps self.now)) c };
}
