// The packets of all flows.
ghost use Rattle.std.specs.Prelude.{◌≡◌, ◌+◌, ◌*◌, ◌%◌, ◌<◌, ◌≤◌, ◌^◌, ℕ, IfOk, Some, MatchOption, length, slice_get};
ghost use Rattle.carrier_plan.specs.declared.plan.Mode.{Mode as PlanMode};
ghost use Rattle.link_base.specs.Window.{last_frame};
ghost use Rattle.plan_checker.specs.WordSize.{word_size};
ghost use Rattle.roe_mappers.specs.Parts.{disparity_after_frame};
ghost use Rattle.link_sender.specs.Rings.{AreRings, PutsParts};

use crate::packet_ring::PacketRing;
use basic_frame::Frame;
use carrier_plan::Flow;
use line_code::Rd;
use link_base::NoMemory;
use plan_checker::Checked;
use std::alloc::Global;

/// The slots of each flow of a plan. All their memory is taken here.
pub fn packet_rings(alloc: Global, checked: &Checked) -> Result<Vec<PacketRing>, NoMemory>
    ensures { IfOk result (λ rings. AreRings checked.now rings.items) }
{
    let flows = checked.plan().flows.len();
    let mut rings = Vec::with_capacity(alloc, flows)?;
    for f in 0..flows {
        rings.push(PacketRing::begin(alloc, checked, f)?)?;
    }
    Ok(rings)
}

/// Writes the parts of frame `n` into the packets of all flows, and says the disparity after it.
pub fn put_frame<const Y: usize>(
    checked: &Checked,
    rings: &mut [PacketRing],
    frame: &Frame<Y>,
    n: u64,
    rd: Rd,
) -> Rd
    requires some { 1 ≤ length checked.now.flows }
    requires rings { AreRings checked.now rings.old }
    requires word { word_size checked.now.option ≡ Y }
    requires comma { checked.now.mode ≡ PlanMode.Tunnel → n % 256 ≡ 0 → slice_get frame.now 0 ≡ Some 188 }
    ensures rings { AreRings checked.now rings.new }
    ensures parts { PutsParts checked.now n rd frame.now rings.old rings.new }
    ensures disparity { result ≡ disparity_after_frame checked.now.mode n rd frame.now }
{
    let mut after = rd;
    for f in 0..rings.len() {
        after = rings[f].put(checked, f, frame, n, rd);
    }
    after
}

/// The number of the packet of a flow whose window opens at the tick before this one.
pub fn opened_before(flow: &Flow, tick: u64) -> Option<u64>
    requires { 1 ≤ flow.now.frames }
    ensures { MatchOption result ((i : ℕ) → ¬ (last_frame flow.now.frames i + flow.now.lmin + 1 ≡ tick))
        (λ i. last_frame flow.now.frames i + flow.now.lmin + 1 ≡ tick) }
{
    let whole = tick.checked_sub(u64::from(flow.lmin))?;
    let frames = u64::from(flow.frames);
    if whole >= frames && whole % frames == 0 {
        Some(whole / frames - 1)
    } else {
        None
    }
}
