// Frames out of the packets that are held.
ghost use Rattle.std.specs.Prelude.{◌≡◌, ℕ, ◌+◌, ◌*◌, ◌<◌, ◌≤◌, IsTrue, length, find, position, take, Some, None, if◌then◌else◌};
ghost use Rattle.std.specs.List.{HoldsAt};
ghost use Rattle.std.specs.Option.{ForSome, option_copied};
ghost use Rattle.carrier_plan.specs.declared.plan.Flow.{Flow as OneFlow};
ghost use Rattle.plan_checker.specs.Rules.{IsGood};
ghost use Rattle.plan_checker.specs.WordSize.{word_size};
ghost use Rattle.roe_mappers.specs.Parts.{spelled_octets};
ghost use Rattle.link_receiver.specs.Playing.{KeepFlows, control_in_hand, octets_in_hand};

use crate::flow_in_hand::FlowInHand;
use basic_frame::Frame;
use carrier_plan::{Mode, Plan};
use plan_checker::Checked;
use roe_mappers::{Unmapped, unmap_frame};

/// Whether frame `n` is at hand in mode `tunnel`, with no bad symbol. Then its octets stand in `frame`.
pub fn spell<const Y: usize>(
    checked: &Checked,
    flows: &[FlowInHand],
    n: u64,
    frame: &mut Frame<Y>,
) -> bool
    requires good { IsGood checked.now }
    requires words { Y ≡ word_size checked.now.option }
    requires flows { (h : ℕ) × KeepFlows checked.now h (n + checked.now.playout) flows.now }
    ensures { checked.now.mode ≡ Mode.Tunnel → octets_in_hand checked.now flows.now 0 n ≡ (if result then Some frame.new else None) }
{
    match checked.plan().mode {
        Mode::Tunnel => spell_symbols(checked, flows, n, frame),
        Mode::Bytes | Mode::Aware => false,
    }
}

// The same in mode `tunnel`.
fn spell_symbols<const Y: usize>(
    checked: &Checked,
    flows: &[FlowInHand],
    n: u64,
    frame: &mut Frame<Y>,
) -> bool
    requires good { IsGood checked.now }
    requires mode { checked.now.mode ≡ Mode.Tunnel }
    requires words { Y ≡ word_size checked.now.option }
    requires flows { (h : ℕ) × KeepFlows checked.now h (n + checked.now.playout) flows.now }
    ensures { octets_in_hand checked.now flows.now 0 n ≡ (if result then Some frame.new else None) }
{
    match flows[0].playout.frame(n) {
        Some(part) => match unmap_frame(checked, 0, n, part, frame) {
            Unmapped::Good => true,
            Unmapped::BadSymbol { .. } => false,
        },
        None => false,
    }
}

/// The octets that the part of frame `n` in flow `f` has, or spells in mode `tunnel`, unless the frame is missed. In mode
/// `tunnel` they are `spelled`, and in the others those of the packet itself.
pub fn octets_of<'a>(
    plan: &Plan,
    flows: &'a [FlowInHand],
    spelled: Option<&'a [u8]>,
    f: usize,
    n: u64,
) -> Option<&'a [u8]>
    requires good { IsGood plan.now }
    requires flow { f < length plan.now.flows }
    requires flows { (h : ℕ) × KeepFlows plan.now h (n + plan.now.playout) flows.now }
    requires spelled { plan.now.mode ≡ Mode.Tunnel → option_copied spelled ≡ octets_in_hand plan.now flows.now 0 n }
    requires whole { ForSome spelled (λ octets. length octets.now ≡ 16 * word_size plan.now.option) }
    ensures octets { option_copied result ≡ octets_in_hand plan.now flows.now f n }
    ensures whole { ForSome result (λ octets. HoldsAt (λ flow. length octets.now ≡ spelled_octets plan.now.mode plan.now flow) plan.now.flows f) }
{
    match plan.mode {
        Mode::Tunnel => spelled,
        Mode::Bytes | Mode::Aware => flows[f].playout.frame(n),
    }
}

// The place of the first flow that has control.
fn first_with_control(plan: &Plan) -> Option<usize>
    ensures { result ≡ position (λ (f : OneFlow). f.control) plan.now.flows }
{
    plan.flows.as_slice().iter().position(|flow| flow.control)
}

/// The place of the flow that has control.
pub fn control_flow(plan: &Plan) -> usize
    requires { IsGood plan.now }
    ensures flow { HoldsAt (λ flow. find (λ (f : OneFlow). f.control) plan.now.flows ≡ Some flow) plan.now.flows result }
    ensures has_control { HoldsAt (λ flow. IsTrue flow.control) plan.now.flows result }
    ensures inside { result < length plan.now.flows }
{
    first_with_control(plan).unwrap_or(0)
}

/// The control word of frame `n` by flow `f`, which has control, unless the frame is missed.
pub fn control_word<const Y: usize>(
    plan: &Plan,
    flows: &[FlowInHand],
    spelled: Option<&[u8]>,
    f: usize,
    n: u64,
) -> Option<[u8; Y]>
    requires good { IsGood plan.now }
    requires words { Y ≡ word_size plan.now.option }
    requires flow { f < length plan.now.flows }
    requires has_control { HoldsAt (λ flow. IsTrue flow.control) plan.now.flows f }
    requires flows { (h : ℕ) × KeepFlows plan.now h (n + plan.now.playout) flows.now }
    requires spelled { plan.now.mode ≡ Mode.Tunnel → option_copied spelled ≡ octets_in_hand plan.now flows.now 0 n }
    requires whole { ForSome spelled (λ octets. length octets.now ≡ 16 * word_size plan.now.option) }
    ensures word { result ≡ control_in_hand plan.now flows.now Y f n }
    ensures octets { ForSome result (λ word. length word ≡ Y) }
{
    match octets_of(plan, flows, spelled, f, n) {
        Some(octets) => Some(front(octets)),
        None => None,
    }
}

// The first octets.
fn front<const Y: usize>(octets: &[u8]) -> [u8; Y]
    requires { Y ≤ length octets.now }
    ensures front { result ≡ take Y octets.now }
    ensures whole { length result ≡ Y }
{
    let mut front = [0; Y];
    front.copy_from_slice(&octets[..Y]);
    front
}
