//! Searches of a history for the packets that wait.

ghost use Rattle.std.specs.Prelude.{◌≡◌, ◌≤◌, ◌+◌, ◌-◌, if◌then◌else◌, length, min, slice_get, reverse};
ghost use Rattle.gn_rules.specs.History.{is_take, sends_of};
ghost use Rattle.gn_rules.specs.Answer.{IsLegal};
ghost use Rattle.gn_rules.specs.Output.{out, queued, queued_to, takes};
ghost use Rattle.std.specs.Option.{option_copied};

use gn_rules::{Config, ConnId, Sending, Step};
use gn_wire::Descriptor;
use std::alloc::Allocator;

/// How many of these packets are queued to the connection.
fn queued_count<A: Allocator>(sends: &[Sending<A>], c: ConnId) -> usize
    ensures { result ≡ length (queued_to c sends.now) }
{
    let mut count = 0usize;
    for sending in sends {
        if sending.to == c && sending.queued {
            count += 1;
        }
    }
    count
}

/// How many packets wait for the connection after a step, where so many did before, at most 18,446,744,073,709,551,615.
fn out_after<A: Allocator>(step: &Step<A>, c: ConnId, before: usize) -> usize
    ensures { let taken = if is_take c step.now.event then 1 else 0 in
        result ≡ min (before - taken + length (queued_to c (sends_of step.now.reply))) 18446744073709551615 }
{
    let queued = queued_count(step.reply.sends(), c);
    if step.event.takes(c) {
        before.saturating_sub(1).saturating_add(queued)
    } else {
        before.saturating_add(queued)
    }
}

/// How many packets were queued to the connection and not taken, in a legal history.
pub(crate) fn out_count<A: Allocator>(config: &Config, history: &[Step<A>], c: ConnId) -> usize
    requires { IsLegal config.now (reverse history.now) }
    ensures value { result ≡ length (out (reverse history.now) c) }
    ensures bound { result ≤ config.now.numbers.out }
{
    let mut count = 0usize;
    for step in history {
        count = out_after(step, c, count);
    }
    count
}

/// How many packets were taken from the connection's output.
fn take_count<A: Allocator>(history: &[Step<A>], c: ConnId) -> usize
    ensures { result ≡ takes (reverse history.now) c }
{
    let mut count = 0usize;
    for step in history {
        count += usize::from(step.event.takes(c));
    }
    count
}

/// The packet that is queued to the connection after so many others of these, where there is one.
fn queued_after<A: Allocator>(
    sends: &[Sending<A>],
    c: ConnId,
    others: usize,
) -> Option<&Descriptor<A>>
    ensures { option_copied result ≡ slice_get (queued_to c sends.now) others }
{
    let mut skip = others;
    for sending in sends {
        if sending.to == c && sending.queued {
            if skip == 0 {
                return Some(&sending.packet);
            }
            skip -= 1;
        }
    }
    None
}

/// The packet that was queued to the connection after so many others, where there is one.
fn packet_after<A: Allocator>(
    history: &[Step<A>],
    c: ConnId,
    others: usize,
) -> Option<&Descriptor<A>>
    ensures { option_copied result ≡ slice_get (queued (reverse history.now) c) others }
{
    let mut skip = others;
    for step in history {
        let packet = queued_after(step.reply.sends(), c, skip);
        if packet.is_some() {
            return packet;
        }
        skip -= queued_count(step.reply.sends(), c);
    }
    None
}

/// The packet that has waited longest for a connection, were it live, in a legal history.
#[tactic(auto, using(crate::proofs::OutputLemmas::first_seen))]
pub(crate) fn first_out<'a, A: Allocator>(
    config: &Config,
    history: &'a [Step<A>],
    c: ConnId,
) -> Option<&'a Descriptor<A>>
    requires { IsLegal config.now (reverse history.now) }
    ensures { option_copied result ≡ slice_get (out (reverse history.now) c) 0 }
{
    let _config = config;
    packet_after(history, c, take_count(history, c))
}
