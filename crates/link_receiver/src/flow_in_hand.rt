// What is kept of a flow between ticks.
ghost use Rattle.std.specs.Prelude.{◌≡◌, ◌+◌, ◌^◌, ◌<◌, ◌≤◌, IfOk, length, map, min, if◌then◌else◌};
ghost use Rattle.std.specs.List.{HoldsAt};
ghost use Rattle.playout_buffer.specs.Candidate.{candidate_of};
ghost use Rattle.playout_buffer.specs.Conditions.{IsWindow, payload_octets};
ghost use Rattle.playout_buffer.specs.Held.{put_answer, payloads_with};
ghost use Rattle.playout_buffer.specs.Received.{is_taken};
ghost use Rattle.link_receiver.specs.Flows.{AreInTime, HaveBegun, advanced_flow};
ghost use Rattle.link_receiver.specs.Records.{window_of};

use link_base::NoMemory;
use plan_checker::Checked;
use playout_buffer::{Playout, Put, Window};
use std::alloc::Global;

/// The packets of a flow.
#[derive(Drop)]
pub struct FlowInHand {
    /// Those that arrived and are still to be played.
    pub playout: Playout,
    /// How many were received.
    pub taken: u64,
}

impl FlowInHand {
    /// Takes a payload that arrives at the present tick under a sequence number.
    pub fn take(&mut self, seq: u32, payload: &[u8]) -> Put
        requires { length payload.now ≡ payload_octets self.old.playout.window }
        ensures answer { result ≡ put_answer self.old.playout.held (candidate_of self.old.playout.window self.old.playout.tick seq) }
        ensures held { self.new.playout ≡ record self.old.playout {
          held = payloads_with self.old.playout.held
              (candidate_of self.old.playout.window self.old.playout.tick seq) payload.now;
        } }
        ensures taken { self.new.taken ≡ (if is_taken result then min (self.old.taken + 1) 18446744073709551615 else self.old.taken) }
    {
        let put = self.playout.put(seq, payload);
        if let Put::Taken(_) = put {
            self.taken = self.taken.saturating_add(1);
        }
        put
    }
}

/// Takes all flows to the next tick.
pub fn advance_all(flows: &mut [FlowInHand])
    requires { AreInTime flows.old }
    ensures { flows.new ≡ map advanced_flow flows.old }
{
    for f in 0..flows.len() {
        flows[f].playout.advance();
    }
}

/// The packets of each flow of a plan before the first tick of a run of `frames` ticks. All their memory is taken here.
pub fn flows_in_hand(
    alloc: Global,
    checked: &Checked,
    frames: u64,
) -> Result<Vec<FlowInHand>, NoMemory>
    requires { frames ≤ 2 ^ 40 }
    ensures { IfOk result (λ kept. HaveBegun checked.now frames kept.items) }
{
    let flows = checked.plan().flows.len();
    let mut kept = Vec::with_capacity(alloc, flows)?;
    for f in 0..flows {
        let playout = Playout::begin(alloc, window_of(checked, f, frames))?;
        kept.push(FlowInHand { playout, taken: 0 })?;
    }
    Ok(kept)
}

// The packets of flow `f` in a run of `frames` ticks.
fn window_of(checked: &Checked, f: usize, frames: u64) -> Window
    requires flow { f < length checked.now.flows }
    requires run { frames ≤ 2 ^ 40 }
    ensures window { HoldsAt (λ flow. result ≡ window_of checked.now flow frames) checked.now.flows f }
    ensures meets { IsWindow result }
{
    let plan = checked.plan();
    let flow = plan.flows.at(f);
    Window {
        frames: flow.frames,
        lmin: flow.lmin,
        lmax: flow.lmax,
        playout: plan.playout,
        cap: flow.cap,
        p: flow.p,
        q: flow.q,
        octets: checked.frame_octets(f),
        packets: checked.packets(f, frames),
    }
}
