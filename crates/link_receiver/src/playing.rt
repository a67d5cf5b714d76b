// A frame, played at each carrier.
ghost use Rattle.std.specs.Prelude.{◌≡◌, ◌+◌, ◌-◌, ◌*◌, ◌<◌, ◌≤◌, ◌^◌, length, Some, None, if◌then◌else◌};
ghost use Rattle.std.specs.Option.{ForSome, option_copied};
ghost use Rattle.plan_checker.specs.Rules.{IsGood};
ghost use Rattle.plan_checker.specs.WordSize.{word_size};
ghost use Rattle.link_receiver.specs.Playing.{KeepFlows, KeepCarriers, HavePlayed, IsControlInHand, octets_in_hand};

use crate::carrier_in_hand::CarrierInHand;
use crate::flow_in_hand::FlowInHand;
use crate::parts::{control_flow, control_word, octets_of, spell};
use basic_frame::Frame;
use carrier_plan::{Mode, Plan};
use plan_checker::Checked;

/// Plays frame `n` of a run of so many ticks at each carrier.
pub fn play_carriers(
    carriers: &mut [CarrierInHand],
    plan: &Plan,
    flows: &[FlowInHand],
    spelled: Option<&[u8]>,
    n: u64,
    run_ticks: u64,
)
    requires good { IsGood plan.now }
    requires carriers { KeepCarriers plan.now run_ticks (n + plan.now.playout) carriers.old }
    requires flows { KeepFlows plan.now run_ticks (n + plan.now.playout) flows.now }
    requires spelled { plan.now.mode ≡ Mode.Tunnel → option_copied spelled ≡ octets_in_hand plan.now flows.now 0 n }
    requires whole { ForSome spelled (λ octets. length octets.now ≡ 16 * word_size plan.now.option) }
    requires run { run_ticks ≤ 2 ^ 40 }
    ensures { HavePlayed plan.now flows.now n run_ticks carriers.old carriers.new }
{
    for c in 0..carriers.len() {
        let octets = octets_of(plan, flows, spelled, carriers[c].flow, n);
        carriers[c].play(octets, n, run_ticks);
    }
}

/// Plays a tick of a run of so many ticks: the frame whose turn it is, if there is one, at each carrier. Its control word takes the
/// place of that before it.
pub fn play_tick<const Y: usize>(
    checked: &Checked,
    flows: &[FlowInHand],
    tick: u64,
    run_ticks: u64,
    frame: &mut Frame<Y>,
    carriers: &mut [CarrierInHand],
    control: &mut Option<[u8; Y]>,
)
    requires good { IsGood checked.now }
    requires words { Y ≡ word_size checked.now.option }
    requires carriers { KeepCarriers checked.now run_ticks tick carriers.old }
    requires flows { KeepFlows checked.now run_ticks tick flows.now }
    requires run { run_ticks ≤ 2 ^ 40 }
    ensures early { tick < checked.now.playout → carriers.new ≡ carriers.old }
    ensures played { checked.now.playout ≤ tick → HavePlayed checked.now flows.now (tick - checked.now.playout) run_ticks carriers.old carriers.new }
    ensures control { checked.now.playout ≤ tick → IsControlInHand checked.now flows.now Y (tick - checked.now.playout) control.new }
    ensures octets { ForSome control.old (λ word. length word ≡ Y) → ForSome control.new (λ word. length word ≡ Y) }
{
    let plan = checked.plan();
    let playout = u64::from(plan.playout);
    if tick < playout {
        return;
    }
    let n = tick - playout;
    let good = spell(checked, flows, n, frame);
    let spelled = octets_if(good, frame);
    play_carriers(carriers, plan, flows, spelled, n, run_ticks);
    *control = control_word(plan, flows, spelled, control_flow(plan), n);
}

// The octets of the frame, if they are good.
fn octets_if<const Y: usize>(good: bool, frame: &Frame<Y>) -> Option<&[u8]>
    ensures octets { option_copied result ≡ (if good then Some frame.now else None) }
    ensures whole { ForSome result (λ octets. length octets.now ≡ 16 * Y) }
{
    if good { Some(frame.octets()) } else { None }
}
