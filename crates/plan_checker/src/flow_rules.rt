// The rules on flows, each tried in one walk over them.
ghost use Rattle.std.specs.Prelude.{IsTrue, MatchOption, ◌↔◌};
ghost use Rattle.plan_checker.specs.Rules.{FailsFirstAt, Holds, IsFirstFailure, IsGood, IsMet, IsMetBelow};
ghost use Rattle.plan_checker.specs.Rules.Rule.{SharedOut, PayloadSize, ArrivalWindow, PlayedInTime, SequenceNumbers, BufferRoom};

use crate::failure::Failure;
use crate::flows::share_out_carriers;
use crate::payload::has_payload;
use crate::timing::{has_room, has_sequence_numbers, has_window, is_played_in_time};
use carrier_plan::Plan;

fn shares_out_carriers(plan: &Plan) -> bool
    ensures { IsTrue result ↔ Holds plan.now SharedOut 0 }
{
    share_out_carriers(plan.flows.as_slice(), plan.carriers.len())
}

// The first flow whose packets have no payload, or one that is too long.
fn wrong_payload(plan: &Plan) -> Option<usize>
    requires { IsMetBelow plan.now 10 }
    ensures { MatchOption result (IsMet plan.now PayloadSize) (FailsFirstAt plan.now PayloadSize) }
{
    for (i, flow) in plan.flows.as_slice().iter().enumerate() {
        if !has_payload(plan, flow) {
            return Some(i);
        }
    }
    None
}

// The first flow whose packets have no window, or one that ends too late.
fn wrong_window(plan: &Plan) -> Option<usize>
    ensures { MatchOption result (IsMet plan.now ArrivalWindow) (FailsFirstAt plan.now ArrivalWindow) }
{
    plan.flows
        .as_slice()
        .iter()
        .position(|flow| !has_window(flow))
}

// The first flow whose packets are played before they have arrived, or too late.
fn wrong_playout(plan: &Plan) -> Option<usize>
    ensures { MatchOption result (IsMet plan.now PlayedInTime) (FailsFirstAt plan.now PlayedInTime) }
{
    for (i, flow) in plan.flows.as_slice().iter().enumerate() {
        if !is_played_in_time(flow, plan.playout) {
            return Some(i);
        }
    }
    None
}

// The first flow whose sequence numbers do not tell its packets apart.
fn wrong_numbers(plan: &Plan) -> Option<usize>
    requires { IsMetBelow plan.now 13 }
    ensures { MatchOption result (IsMet plan.now SequenceNumbers) (FailsFirstAt plan.now SequenceNumbers) }
{
    for (i, flow) in plan.flows.as_slice().iter().enumerate() {
        if !has_sequence_numbers(flow) {
            return Some(i);
        }
    }
    None
}

// The first flow whose buffer does not hold its packets.
fn wrong_room(plan: &Plan) -> Option<usize>
    requires { IsMetBelow plan.now 14 }
    ensures { MatchOption result (IsMet plan.now BufferRoom) (FailsFirstAt plan.now BufferRoom) }
{
    for (i, flow) in plan.flows.as_slice().iter().enumerate() {
        if !has_room(flow, plan.playout) {
            return Some(i);
        }
    }
    None
}

// The first failure among the rules on flows.
pub(crate) fn failure_of_flows(plan: &Plan) -> Option<Failure>
    requires { IsMetBelow plan.now 9 }
    ensures { MatchOption result (IsGood plan.now) (λ f. IsFirstFailure plan.now f.rule f.item) }
{
    if !shares_out_carriers(plan) {
        return Some(Failure { rule: 9, item: 0 });
    }
    if let Some(i) = wrong_payload(plan) {
        return Some(Failure::at(10, i));
    }
    if let Some(i) = wrong_window(plan) {
        return Some(Failure::at(11, i));
    }
    if let Some(i) = wrong_playout(plan) {
        return Some(Failure::at(12, i));
    }
    if let Some(i) = wrong_numbers(plan) {
        return Some(Failure::at(13, i));
    }
    if let Some(i) = wrong_room(plan) {
        return Some(Failure::at(14, i));
    }
    None
}
