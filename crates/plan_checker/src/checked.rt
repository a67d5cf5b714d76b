// A plan that meets the rules, and its numbers.
ghost use Rattle.std.specs.Prelude.{All, Any, IfErr, IfOk, IsOk, MatchResult, length, slice_index, ◌≡◌, ◌<◌, ◌≤◌, ◌^◌, ◌↔◌};
ghost use Rattle.std.specs.List.{HoldsAt};
ghost use Rattle.plan_checker.specs.WordSize.{word_size};
ghost use Rattle.plan_checker.specs.Rules.{IsFirstFailure, IsGood};
ghost use Rattle.plan_checker.specs.Verdict.{verdict_of};
ghost use Rattle.plan_checker.specs.Verdict.Verdict.{Good, Fails};
ghost use Rattle.link_base.specs.Count.{HasCount};
ghost use Rattle.link_base.specs.Window.{IsMostHeld};
ghost use Rattle.plan_checker.specs.Packets.{run_packets};
ghost use Rattle.plan_checker.specs.Run.{IsDue, delay_of, frame_octets_of, least_delays, longest_block, packet_frames, packets_held, samples_due, ticks_of_run};

use crate::failure::Failure;
use crate::payload::octets_of_frame;
use crate::rules::first_failure;
use crate::timing::packets_held;
use crate::word_size::octets_of_word;
use carrier_plan::Plan;
use link_base::NoMemory;
use std::alloc::Global;
use std::marker::Model;
use thiserror::Error;

/// A plan that meets every rule.
#[derive(Debug, Drop)]
pub struct Checked {
    plan: Plan,
}

impl Model for Checked {
    ghost use Rattle.carrier_plan.specs.declared.plan.Plan.{Plan};
    ghost use Rattle.plan_checker.specs.Rules.{IsGood};

    ghost Value = { Plan };

    ghost view = { λ checked. checked.plan };

    ghost invariant = { λ checked. IsGood checked.plan };
}

/// A plan that fails a rule, with its first failure.
#[derive(Debug, Drop, Error)]
#[error("rule {rule} fails at {item}")]
pub struct Refused {
    pub plan: Plan,
    /// The number of the rule.
    pub rule: u32,
    /// The place of the carrier or flow that the rule fails at, or 0 where the rule speaks of the whole plan.
    pub item: u32,
}

/// Tries the rules on a plan: by their numbers, and each by the carriers or flows in their order.
pub fn check(plan: Plan) -> Result<Checked, Refused>
    ensures exact { IsOk result ↔ IsGood plan }
    ensures kept { IfOk result (λ checked. checked ≡ plan) }
    ensures handed_back { IfErr result (λ refused. refused.plan ≡ plan) }
    ensures first { IfErr result (λ refused. IsFirstFailure plan refused.rule refused.item) }
    ensures computed { MatchResult result
        (λ _. verdict_of plan ≡ Good)
        (λ refused. verdict_of plan ≡ Fails refused.rule refused.item) }
{
    match first_failure(&plan) {
        None => Ok(Checked { plan }),
        Some(Failure { rule, item }) => Err(Refused { plan, rule, item }),
    }
}

impl Checked {
    /// The plan.
    pub fn plan(&self) -> &Plan
        ensures same { result.now ≡ self.now }
        ensures good { IsGood result.now }
    {
        &self.plan
    }

    /// The octets of a word of the basic frame.
    pub fn word_octets(&self) -> usize
        ensures { result ≡ word_size self.now.option }
    {
        octets_of_word(self.plan.option)
    }

    /// The basic frames of the longest block among the carriers.
    pub fn longest(&self) -> u32
        ensures value { result ≡ longest_block self.now }
        ensures bound { All (λ c. c.k ≤ result) self.now.carriers }
        ensures attained { Any (λ c. c.k ≡ result) self.now.carriers }
    {
        let mut longest = 0;
        for carrier in self.plan.carriers.as_slice() {
            longest = longest.max(carrier.k);
        }
        longest
    }

    /// The basic frames from the tick at which a sample of carrier `c` is handed in to the tick at which it leaves.
    pub fn delay(&self, c: usize) -> u64
        requires { c < length self.now.carriers }
        ensures { result ≡ delay_of self.now c }
    {
        u64::from(self.plan.playout) + u64::from(self.plan.carriers.at(c).k)
    }

    /// The greatest number of packets of flow `f` that may have to be held at one tick.
    pub fn need(&self, f: usize) -> u64
        requires { f < length self.now.flows }
        ensures value { result ≡ packets_held self.now f }
        ensures most { IsMostHeld (slice_index (packet_frames self.now) f) (slice_index (least_delays self.now) f)
            self.now.playout result }
    {
        packets_held(self.plan.flows.at(f), self.plan.playout)
    }

    /// The packets of flow `f` in a run of `h` ticks.
    pub fn packets(&self, f: usize, h: u64) -> u64
        requires flow { f < length self.now.flows }
        requires run { h ≤ 2 ^ 40 }
        ensures { HoldsAt (λ flow. result ≡ run_packets self.now flow h) self.now.flows f }
    {
        (h + u64::from(self.longest())).div_ceil(u64::from(self.plan.flows.at(f).frames))
    }

    /// The ticks in which a run of `h` ticks is played.
    pub fn ticks(&self, h: u64) -> u64
        requires { h ≤ 2 ^ 40 }
        ensures { result ≡ ticks_of_run self.now h }
    {
        h + u64::from(self.longest()) + u64::from(self.plan.playout)
    }

    /// The number of samples of carrier `c` that are handed in at tick `n`.
    pub fn due(&self, c: usize, n: u64) -> u32
        requires carrier { c < length self.now.carriers }
        requires tick { n ≤ 2 ^ 40 }
        ensures value { result ≡ samples_due self.now c n }
        ensures count { HasCount (IsDue self.now c n) result }
    {
        let carrier = self.plan.carriers.at(c);
        let s = u64::from(carrier.s);
        let k = u64::from(carrier.k);
        ((n + 1) * s / k - n * s / k) as u32
    }

    /// The octets of one basic frame in flow `f`.
    pub fn frame_octets(&self, f: usize) -> usize
        requires { f < length self.now.flows }
        ensures { result ≡ frame_octets_of self.now f }
    {
        octets_of_frame(&self.plan, self.plan.flows.at(f))
    }

    /// The same plan once more.
    pub fn copy(&self, alloc: Global) -> Result<Checked, NoMemory>
        ensures { IfOk result (λ copy. copy ≡ self.now) }
    {
        Ok(Checked {
            plan: self.plan.copy(alloc)?,
        })
    }
}
