// The payload of a packet of a flow.
ghost use Rattle.std.specs.Prelude.{IsTrue, All, length, ◌≡◌, ◌<◌, ◌≤◌, ◌↔◌};
ghost use Rattle.plan_checker.specs.Flows.{HasPayload, bits_of_carriers, octets_of_frame};

use crate::container::bits_of_container;
use crate::word_size::octets_of_word;
use carrier_plan::{Flow, Mode, Plan};

// The IQ bits of the containers of the listed carriers.
fn bits_of_carriers(plan: &Plan, numbers: &[u32]) -> usize
    requires known { All (λ c. c < length plan.now.carriers) numbers.now }
    requires few { length numbers.now ≤ 64 }
    requires pieces { All (λ c. length c.pieces ≤ 4) plan.now.carriers }
    ensures value { result ≡ bits_of_carriers plan.now numbers.now }
    ensures small { result ≤ 1_099_511_627_520 }
{
    let mut bits = 0;
    for number in numbers {
        bits += bits_of_container(plan.carriers.at(*number as usize)) as usize;
    }
    bits
}

// The octets of one basic frame in a flow.
pub(crate) fn octets_of_frame(plan: &Plan, flow: &Flow) -> usize
    requires known { All (λ c. c < length plan.now.carriers) flow.now.carriers }
    requires few { length flow.now.carriers ≤ 64 }
    requires pieces { All (λ c. length c.pieces ≤ 4) plan.now.carriers }
    ensures value { result ≡ octets_of_frame plan.now flow.now }
    ensures small { result ≤ 137_438_953_456 }
{
    let word = octets_of_word(plan.option);
    match plan.mode {
        Mode::Tunnel => 20 * word,
        Mode::Bytes => 16 * word,
        Mode::Aware => {
            let control = if flow.control { word } else { 0 };
            control + bits_of_carriers(plan, flow.carriers.as_slice()).div_ceil(8)
        }
    }
}

pub(crate) fn has_payload(plan: &Plan, flow: &Flow) -> bool
    requires known { All (λ c. c < length plan.now.carriers) flow.now.carriers }
    requires few { length flow.now.carriers ≤ 64 }
    requires pieces { All (λ c. length c.pieces ≤ 4) plan.now.carriers }
    ensures { IsTrue result ↔ HasPayload plan.now flow.now }
{
    (1..=64).contains(&flow.frames)
        && (1..=1492).contains(&(flow.frames as usize * octets_of_frame(plan, flow)))
}
