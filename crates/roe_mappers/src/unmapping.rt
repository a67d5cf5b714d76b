// From the octets that carry a basic frame to the frame.
ghost use Rattle.std.specs.Prelude.{◌≡◌, ◌*◌, ◌<◌, ◌≤◌, ◌++◌, IsTrue, false, length, drop, map, Contains};
ghost use Rattle.std.specs.List.{HoldsAt};
ghost use Rattle.line_code.specs.Decoded.{octet_of};
ghost use Rattle.line_code.specs.Packed.{symbols_in};
ghost use Rattle.plan_checker.specs.Flows.{octets_of_frame};
ghost use Rattle.plan_checker.specs.Rules.{IsGood};
ghost use Rattle.plan_checker.specs.Run.{frame_octets_of};
ghost use Rattle.plan_checker.specs.WordSize.{word_size};
ghost use Rattle.roe_mappers.specs.FrameAfter.{IsFrameAfter, IsReplacedUnless, PutsContainers, named_symbol};
ghost use Rattle.roe_mappers.specs.Symbols.{bad_symbol, first_bad_symbol};

use crate::containers::{control_octets, put_containers};
use crate::symbols::{bad_symbol_among, read_octets};
use basic_frame::Frame;
use carrier_plan::{Flow, Mode, Plan};
use plan_checker::Checked;

/// What became of the octets that carry a basic frame.
#[derive(Clone, Copy, Debug, PartialEq, Eq)]
pub enum Unmapped {
    /// They are in the frame.
    Good,
    /// The symbol at `place`, from 0, is bad: neither disparity spells it, or it is the comma where none is due, or it
    /// is not the comma that is due. No symbol before it is bad.
    BadSymbol { place: u32 },
}

/// Reads the octets that carry frame n in a packet of flow `f`. In modes `tunnel` and `bytes` they are the whole frame, and
/// in mode `aware` the control word, where the flow has control, and the containers of the flow's carriers. All else of the
/// frame stays, and all of it where a symbol is bad.
///
/// A symbol is read at either disparity, so that a part that is missed spoils none after it.
pub fn unmap_frame<const Y: usize>(
    checked: &Checked,
    f: usize,
    n: u64,
    part: &[u8],
    frame: &mut Frame<Y>,
) -> Unmapped
    requires word { word_size checked.now.option ≡ Y }
    requires flow { f < length checked.now.flows }
    requires whole { length part.now ≡ frame_octets_of checked.now f }
    ensures symbols { bad_symbol checked.now.mode n part.now ≡ named_symbol result }
    ensures frame { HoldsAt (λ flow. IsFrameAfter result checked.now flow part.now frame.old frame.new) checked.now.flows f }
{
    let plan = checked.plan();
    match plan.mode {
        Mode::Tunnel => unmap_symbols(n, part, frame),
        Mode::Bytes => {
            frame.set_octets(part);
            Unmapped::Good
        }
        Mode::Aware => {
            unmap_aware(plan, plan.flows.at(f), part, frame);
            Unmapped::Good
        }
    }
}

// Reads the symbols of frame n, and replaces the frame by what they spell unless one is bad.
fn unmap_symbols<const Y: usize>(n: u64, part: &[u8], frame: &mut Frame<Y>) -> Unmapped
    requires some { 1 ≤ Y }
    requires few { Y ≤ 16 }
    requires whole { length part.now ≡ 20 * Y }
    ensures symbols { first_bad_symbol n (symbols_in part.now) ≡ named_symbol result }
    ensures frame { IsReplacedUnless result (map octet_of (symbols_in part.now)) frame.old frame.new }
{
    let mut octets = [0; 256];
    let others = read_octets(part, &mut octets[..16 * Y]);
    match bad_symbol_among(part, n, others) {
        Some(place) => Unmapped::BadSymbol { place },
        None => {
            frame.set_octets(&octets[..16 * Y]);
            Unmapped::Good
        }
    }
}

// Puts the control word, where the flow has control, and the containers of the flow's carriers into the frame.
fn unmap_aware<const Y: usize>(plan: &Plan, flow: &Flow, part: &[u8], frame: &mut Frame<Y>)
    requires good { IsGood plan.now }
    requires flow { Contains plan.now.flows flow.now }
    requires mode { plan.now.mode ≡ Mode.Aware }
    requires word { word_size plan.now.option ≡ Y }
    requires whole { length part.now ≡ octets_of_frame plan.now flow.now }
    ensures { PutsContainers plan.now flow.now part.now frame.old frame.new }
{
    let control = control_octets(flow, Y);
    put_containers(plan, flow, &part[control..], frame);
    put_control(flow, &part[..control], frame);
}

// Replaces the control word, where the flow has control.
fn put_control<const Y: usize>(flow: &Flow, word: &[u8], frame: &mut Frame<Y>)
    requires { IsTrue flow.now.control → length word.now ≡ Y }
    ensures control { IsTrue flow.now.control → frame.new ≡ word.now ++ drop Y frame.old }
    ensures no_control { flow.now.control ≡ false → frame.new ≡ frame.old }
{
    if flow.control {
        frame.set_control(word);
    }
}
