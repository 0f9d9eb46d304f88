//! The comparison of a report with its own history, actor by actor.

ghost use Rattle.std.specs.Prelude.{◌≡◌, ◌+◌, ◌-◌, ◌<◌, ◌↔◌, IsTrue, None, true, ℕ, length, nat_lt, reverse};
ghost use Rattle.std.specs.List.{list_all};
ghost use Rattle.gn_rules.specs.declared.config.Config.{Config};
ghost use Rattle.gn_rules.specs.Answer.{IsLegal};
ghost use Rattle.gn_rules.specs.History.{mine};
ghost use Rattle.gn_actors.specs.declared.who.Who.TheVariants.{House};
ghost use Rattle.gn_report.specs.Actors as actors;
ghost use Rattle.gn_report.specs.BodyEnds as ends;
ghost use Rattle.gn_report.specs.Flaw.{HouseConfirmed, IsConfirmed, IsFitting, IsFlaw, ReaderConfirmed, TookAll, WriterConfirmed};
ghost use Rattle.gn_report.specs.Survey.{IsSurvey};

use crate::ends::{is_reader_end, is_writer_end, may_close_first};
use crate::events::{are_readers, are_routes, are_writers, conn_of, connects};
use crate::own::are_own;
use crate::report::{LinkReport, Report};
use crate::survey::Survey;
use gn_rules::{ConnId, Receipt, Step};
use gn_shake::Role;
use std::alloc::Allocator;

/// Whether two connections are the same, or both are none.
fn is_same_conn(a: Option<ConnId>, b: Option<ConnId>) -> bool
    ensures { IsTrue result ↔ (a ≡ b) }
{
    match (a, b) {
        (Some(c), Some(d)) => c == d,
        (None, None) => true,
        _ => false,
    }
}

/// Whether receipts are the actor's own steps: known from the survey, or compared.
fn is_own<A: Allocator>(known: bool, steps: &[Step<A>], actor: u32, receipts: &[Receipt<A>]) -> bool
    requires { known ≡ true → receipts.now ≡ mine steps.now actor }
    ensures { IsTrue result ↔ (receipts.now ≡ mine steps.now actor) }
{
    known || are_own(steps, actor, receipts)
}

/// Whether what is compared of a reader is so.
fn is_reader_confirmed<Rd, W, A: Allocator>(
    steps: &[Step<A>],
    survey: &Survey,
    writer: u32,
    role: Role,
    link: &LinkReport<Rd, W, A>,
) -> bool
    ensures { IsTrue result ↔ ReaderConfirmed steps.now survey.now.all_call writer role link.now }
{
    let own = link.reader_receipts.as_slice();
    let first = may_close_first(survey.all_call, role, link.writer_end);
    is_same_conn(link.conn, conn_of(own))
        && are_readers(link.conn, own)
        && connects(own) <= 1
        && is_reader_end(steps, writer, first, link)
}

/// Whether what is compared of a writer is so.
fn is_writer_confirmed<Rd, W, A: Allocator>(
    report: &Report<Rd, W, A>,
    roles: &[Role],
    survey: &Survey,
    actor: u32,
    role: Role,
    link: &LinkReport<Rd, W, A>,
) -> bool
    requires { IsSurvey roles.now report.now survey.now }
    ensures { IsTrue result
        ↔ WriterConfirmed (ends.is_settled report.now.history.items) roles.now report.now.history.items
        actor role link.now }
{
    are_writers(link.conn, link.writer_receipts.as_slice())
        && is_writer_end(report, roles, survey, actor, role, link)
}

/// Whether no step is of an actor above this one.
fn are_actors<A: Allocator>(steps: &[Step<A>], last: u32) -> bool
    ensures { result ≡ list_all (λ step. nat_lt step.actor (last + 1)) steps.now }
{
    steps
        .iter()
        .all(|step| u64::from(step.actor) < u64::from(last) + 1)
}

/// Whether what is compared of the house is so.
fn is_house_confirmed<A: Allocator>(
    steps: &[Step<A>],
    survey: &Survey,
    actor: u32,
    receipts: &[Receipt<A>],
) -> bool
    requires { survey.now.are_routed ≡ ends.is_settled steps.now (length steps.now) }
    ensures { IsTrue result ↔ HouseConfirmed (ends.is_settled steps.now) steps.now actor receipts.now }
{
    are_routes(receipts) && are_actors(steps, actor) && survey.are_routed
}

impl<Rd, W, A: Allocator> Report<Rd, W, A> {
    /// Whether what is compared of the actor is so, but that its receipts are its own steps.
    fn is_fitting(&self, roles: &[Role], survey: &Survey, actor: u32) -> bool
        requires roles { length roles.now ≡ length self.now.links.items }
        requires survey { IsSurvey roles.now self.now survey.now }
        requires actor { actor < actors.number_in self.now House + 1 }
        ensures { IsTrue result ↔ IsFitting (ends.is_settled self.now.history.items) roles.now self.now actor }
    {
        let n = self.links.len();
        let place = actor as usize;
        let steps = self.history.as_slice();
        if place < n {
            is_reader_confirmed(
                steps,
                survey,
                n as u32 + actor,
                roles[place],
                &self.links[place],
            )
        } else if place < n + n {
            is_writer_confirmed(
                self,
                roles,
                survey,
                actor,
                roles[place - n],
                &self.links[place - n],
            )
        } else if place < n + n + self.workers.len() {
            are_routes(self.workers[place - (n + n)].as_slice())
        } else {
            is_house_confirmed(steps, survey, actor, self.house.as_slice())
        }
    }

    /// Whether all that is compared of the actor is so.
    fn is_confirmed(&self, roles: &[Role], survey: &Survey, actor: u32) -> bool
        requires roles { length roles.now ≡ length self.now.links.items }
        requires survey { IsSurvey roles.now self.now survey.now }
        requires actor { actor < actors.number_in self.now House + 1 }
        ensures { IsTrue result ↔ IsConfirmed (ends.is_settled self.now.history.items) roles.now self.now actor }
    {
        is_own(
            survey.are_own,
            self.history.as_slice(),
            actor,
            self.receipts_of(actor),
        ) && self.is_fitting(roles, survey, actor)
    }

    /// The least actor that isn't confirmed.
    fn least_flaw(&self, roles: &[Role]) -> Option<u32>
        requires { length roles.now ≡ length self.now.links.items }
        ensures { IsFlaw (ends.is_settled self.now.history.items) roles.now self.now result }
    {
        let survey = self.survey(roles);
        for actor in 0..self.actors() {
            if !self.is_confirmed(roles, &survey, actor) {
                return Some(actor);
            }
        }
        None
    }

    /// The least actor of which something doesn't hold that is compared here: that its receipts are its own
    /// steps, that its events, its link's connection and its end go together with the history and with the end of the
    /// link's other body. `None` where all of it holds of each actor. A step of an actor that the run doesn't have, and
    /// an admitted ticket that isn't routed, is charged to the house. One role for each link.
    ///
    /// Takes no memory. Where there is no flaw, and tickets are routed nearly in the order in which they were admitted, each
    /// receipt and each step is looked at a few times, however many actors there are.
    pub fn flaw(&self, roles: &[Role]) -> Option<u32>
        requires { length roles.now ≡ length self.now.links.items }
        ensures flaw { IsFlaw (ends.is_settled self.now.history.items) roles.now self.now result }
        ensures drained { (s : Config) (k : ℕ) → IsLegal s (reverse self.now.history.items) → result ≡ None
            → k < length self.now.links.items → TookAll self.now k }
    {
        self.least_flaw(roles)
    }
}
