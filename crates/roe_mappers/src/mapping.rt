// From a basic frame to the octets that carry it.
ghost use Rattle.std.specs.Prelude.{◌≡◌, ◌+◌, ◌%◌, ◌<◌, ◌≤◌, length, Contains, Some, slice_get};
ghost use Rattle.std.specs.List.{HoldsAt};
ghost use Rattle.plan_checker.specs.Flows.{octets_of_frame};
ghost use Rattle.plan_checker.specs.Rules.{IsGood};
ghost use Rattle.plan_checker.specs.Run.{frame_octets_of};
ghost use Rattle.plan_checker.specs.WordSize.{word_size};
ghost use Rattle.roe_mappers.specs.Parts.{IsAwarePart, IsPart, disparity_after_frame};

use crate::containers::{control_octets, fill_containers};
use crate::spelling::spell;
use basic_frame::Frame;
use carrier_plan::{Flow, Mode, Plan};
use line_code::Rd;
use plan_checker::Checked;

/// Writes the octets that carry frame n in a packet of flow `f`, and says the disparity after it. In mode `tunnel` the
/// frame's characters are spelled from the disparity `rd` on, and in the other modes the disparity stays.
///
/// `out` has the octets of one basic frame in the flow. In mode `tunnel` the first octet of a hyperframe, where n mod 256
/// is 0, is BCh, since the line carries the comma there.
pub fn map_frame<const Y: usize>(
    checked: &Checked,
    f: usize,
    frame: &Frame<Y>,
    n: u64,
    rd: Rd,
    out: &mut [u8],
) -> Rd
    requires word { word_size checked.now.option ≡ Y }
    requires flow { f < length checked.now.flows }
    requires room { length out.old ≡ frame_octets_of checked.now f }
    requires comma { checked.now.mode ≡ Mode.Tunnel → n % 256 ≡ 0 → slice_get frame.now 0 ≡ Some 188 }
    ensures part { HoldsAt (λ flow. IsPart checked.now flow n rd frame.now out.new) checked.now.flows f }
    ensures disparity { result ≡ disparity_after_frame checked.now.mode n rd frame.now }
{
    let plan = checked.plan();
    match plan.mode {
        Mode::Tunnel => spell(frame.octets(), n, rd, out),
        Mode::Bytes => {
            out.copy_from_slice(frame.octets());
            rd
        }
        Mode::Aware => {
            map_aware(plan, plan.flows.at(f), frame, out);
            rd
        }
    }
}

// Writes the control word, where the flow has control, and the containers of the flow's carriers.
fn map_aware<const Y: usize>(plan: &Plan, flow: &Flow, frame: &Frame<Y>, out: &mut [u8])
    requires good { IsGood plan.now }
    requires flow { Contains plan.now.flows flow.now }
    requires mode { plan.now.mode ≡ Mode.Aware }
    requires word { word_size plan.now.option ≡ Y }
    requires room { length out.old ≡ octets_of_frame plan.now flow.now }
    ensures { IsAwarePart plan.now flow.now frame.now out.new }
{
    let control = control_octets(flow, Y);
    out[..control].copy_from_slice(&frame.control()[..control]);
    fill_containers(plan, flow, frame, &mut out[control..]);
}
