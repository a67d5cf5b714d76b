// The rules of a plan in their order. Each on carriers is tried in one walk over them.
ghost use Rattle.std.specs.Prelude.{IsTrue, MatchOption, length, ◌<◌, ◌↔◌};
ghost use Rattle.plan_checker.specs.Rules.{FailsFirstAt, Holds, IsFirstFailure, IsGood, IsMet, IsMetBelow};
ghost use Rattle.plan_checker.specs.Rules.Rule.{LineOption, Counts, WholeFrames, SampleRate, SampleWidth, ContainerSize, ContainerEnd, SeparateBits};

use crate::container::{has_prescribed_size, has_separate_bits, lies_within};
use crate::failure::Failure;
use crate::flow_rules::failure_of_flows;
use crate::flows::is_one_whole_flow;
use crate::sample_rate::{has_sample_rate, has_sample_width};
use crate::word_size::octets_of_word;
use carrier_plan::{Mode, Plan};

fn has_line_option(plan: &Plan) -> bool
    ensures { IsTrue result ↔ Holds plan.now LineOption 0 }
{
    (1..=7).contains(&plan.option)
}

fn has_counts(plan: &Plan) -> bool
    ensures { IsTrue result ↔ Holds plan.now Counts 0 }
{
    (1..=64).contains(&plan.carriers.len()) && (1..=8).contains(&plan.flows.len())
}

fn carries_whole_frames(plan: &Plan) -> bool
    ensures { IsTrue result ↔ Holds plan.now WholeFrames 0 }
{
    match plan.mode {
        Mode::Tunnel | Mode::Bytes => {
            is_one_whole_flow(plan.flows.as_slice(), plan.carriers.len())
        }
        Mode::Aware => true,
    }
}

// The first carrier without a rate that can be carried.
fn wrong_rate(plan: &Plan) -> Option<usize>
    ensures { MatchOption result (IsMet plan.now SampleRate) (FailsFirstAt plan.now SampleRate) }
{
    plan.carriers
        .as_slice()
        .iter()
        .position(|carrier| !has_sample_rate(carrier))
}

// The first carrier whose samples are too narrow or too wide.
fn wrong_width(plan: &Plan) -> Option<usize>
    ensures { MatchOption result (IsMet plan.now SampleWidth) (FailsFirstAt plan.now SampleWidth) }
{
    plan.carriers
        .as_slice()
        .iter()
        .position(|carrier| !has_sample_width(carrier))
}

// The first carrier whose container has no pieces, too many or an empty one, or is not as long as prescribed.
fn wrong_size(plan: &Plan) -> Option<usize>
    requires rates { IsMet plan.now SampleRate }
    requires widths { IsMet plan.now SampleWidth }
    ensures { MatchOption result (IsMet plan.now ContainerSize) (FailsFirstAt plan.now ContainerSize) }
{
    for (i, carrier) in plan.carriers.as_slice().iter().enumerate() {
        if !has_prescribed_size(carrier) {
            return Some(i);
        }
    }
    None
}

// The first carrier with a piece that ends past the frame's IQ bits.
fn wrong_end(plan: &Plan) -> Option<usize>
    ensures { MatchOption result (IsMet plan.now ContainerEnd) (FailsFirstAt plan.now ContainerEnd) }
{
    let bits = 120 * octets_of_word(plan.option) as u64;
    plan.carriers
        .as_slice()
        .iter()
        .position(|carrier| !lies_within(carrier, bits))
}

fn is_separate(plan: &Plan, i: usize) -> bool
    requires { i < length plan.now.carriers }
    ensures { IsTrue result ↔ Holds plan.now SeparateBits i }
{
    has_separate_bits(plan.carriers.as_slice(), i)
}

// The first carrier with a piece that shares a bit with an earlier one.
fn shared_bits(plan: &Plan) -> Option<usize>
    ensures { MatchOption result (IsMet plan.now SeparateBits) (FailsFirstAt plan.now SeparateBits) }
{
    for i in 0..plan.carriers.len() {
        if !is_separate(plan, i) {
            return Some(i);
        }
    }
    None
}

// The first failure among the rules that come first, which speak of the plan as a whole.
fn failure_of_plan(plan: &Plan) -> Option<Failure>
    ensures { MatchOption result (IsMetBelow plan.now 4) (λ f. IsFirstFailure plan.now f.rule f.item) }
{
    if !has_line_option(plan) {
        return Some(Failure { rule: 1, item: 0 });
    }
    if !has_counts(plan) {
        return Some(Failure { rule: 2, item: 0 });
    }
    if !carries_whole_frames(plan) {
        return Some(Failure { rule: 3, item: 0 });
    }
    None
}

// The first failure among the rules on carriers.
fn failure_of_carriers(plan: &Plan) -> Option<Failure>
    requires { IsMetBelow plan.now 4 }
    ensures { MatchOption result (IsMetBelow plan.now 9) (λ f. IsFirstFailure plan.now f.rule f.item) }
{
    if let Some(i) = wrong_rate(plan) {
        return Some(Failure::at(4, i));
    }
    if let Some(i) = wrong_width(plan) {
        return Some(Failure::at(5, i));
    }
    if let Some(i) = wrong_size(plan) {
        return Some(Failure::at(6, i));
    }
    if let Some(i) = wrong_end(plan) {
        return Some(Failure::at(7, i));
    }
    if let Some(i) = shared_bits(plan) {
        return Some(Failure::at(8, i));
    }
    None
}

// The first failure of a plan, by rule and then by item.
pub(crate) fn first_failure(plan: &Plan) -> Option<Failure>
    ensures { MatchOption result (IsGood plan.now) (λ f. IsFirstFailure plan.now f.rule f.item) }
{
    if let Some(failure) = failure_of_plan(plan) {
        return Some(failure);
    }
    if let Some(failure) = failure_of_carriers(plan) {
        return Some(failure);
    }
    failure_of_flows(plan)
}
