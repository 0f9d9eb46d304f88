//! A replay as it stands, and what an event does to it.

ghost use Rattle.std.specs.Prelude.{◌≡◌, ◌++◌, ◌∷◌, Err, Ok, IfOk, OnOk};
ghost use Rattle.gn_rules.specs.Answer.{answer};
ghost use Rattle.gn_text.specs.Steps.{step_text};
ghost use Rattle.gn_replay.specs.Events.{happens, made, refuses};
ghost use Rattle.gn_replay.specs.Outcomes.{IsOutcome};
ghost use Rattle.gn_replay.specs.Playing.{after_playing};

use crate::form::Form;
use crate::given::add;
use crate::link::Link;
use crate::outcome::Outcome;
use crate::saying::Saying;
use gn_rules::{Event, Refusal, Reply, RouterCore, Step};
use gn_text::push_step;
use std::alloc::{AllocError, Allocator};
use std::marker::Model;

/// A router that captured lines are played on, its links, and what is printed and not written yet.
#[derive(Drop)]
pub(crate) struct Play<A: Allocator + Copy, C: RouterCore<A>> {
    pub(crate) alloc: A,
    pub(crate) core: C,
    pub(crate) links: Vec<Link<A>, A>,
    pub(crate) out: Vec<u8, A>,
    pub(crate) refusals: u64,
    pub(crate) form: Form,
}

impl<A: Allocator + Copy, C: RouterCore<A>> Model for Play<A, C> {
    ghost use Rattle.std.specs.Prelude.{reverse};
    ghost use Rattle.gn_replay.specs.Playing.{Playing};

    ghost Value = { Playing A };

    ghost view = { λ p. record {
      form = p.form;
      settings = C.settings p.core;
      past = reverse (C.steps p.core);
      links = p.links.items;
      out = p.out.items;
      refusals = p.refusals;
    } };
}

impl<A: Allocator + Copy, C: RouterCore<A>> Play<A, C> {
    /// Makes the step of an event and the rules' reply, and prints it.
    #[tactic(auto, using(crate::proofs::EventLemmas::past_push))]
    fn make_step(&mut self, event: Event<A>, reply: Reply<A>) -> Result<Outcome, AllocError>
        requires { answer self.old.settings self.old.past event ≡ Ok reply }
        ensures outcome { IfOk result (λ o. IsOutcome o (Ok reply)) }
        ensures after { OnOk result (self.new ≡ record self.old {
          past = made event reply ∷ self.old.past;
          out = self.old.out ++ step_text (made event reply);
        }) }
    {
        let step = Step {
            actor: 0,
            event,
            reply,
        };
        push_step(&mut self.out, &step)?;
        let outcome = Outcome {
            connection: step.reply.connected(),
            is_not_live: false,
        };
        add(&mut self.core, step)?;
        Ok(outcome)
    }

    /// Says a refusal, and counts it.
    fn count_refusal(&mut self, refusal: Refusal) -> Result<Outcome, AllocError>
        ensures outcome { IfOk result (λ o. IsOutcome {A = A} o (Err refusal)) }
        ensures after { OnOk result (self.new ≡ after_playing self.old (refuses self.old.past refusal)) }
    {
        self.refusals = self.refusals.saturating_add(1);
        self.say(Saying::Refused(refusal))?;
        Ok(Outcome {
            connection: None,
            is_not_live: refusal == Refusal::NotLive,
        })
    }

    /// Lets an event happen, and prints its answer.
    #[tactic(auto, using(crate::proofs::EventLemmas::found))]
    pub(crate) fn happen(&mut self, event: Event<A>) -> Result<Outcome, AllocError>
        ensures outcome { IfOk result (λ o. IsOutcome o (answer self.old.settings self.old.past event)) }
        ensures after { OnOk result (self.new ≡ after_playing self.old
            (happens self.old.settings self.old.past event)) }
    {
        match self.core.answer_to(&event) {
            Ok(reply) => self.make_step(event, reply),
            Err(Refusal::NoMemory) => Err(AllocError),
            Err(refusal) => self.count_refusal(refusal),
        }
    }

    /// Lets an event of a line happen.
    pub(crate) fn play_event(&mut self, event: Event<A>) -> Result<(), AllocError>
        ensures { OnOk result (self.new ≡ after_playing self.old
            (happens self.old.settings self.old.past event)) }
    {
        self.happen(event)?;
        Ok(())
    }
}
