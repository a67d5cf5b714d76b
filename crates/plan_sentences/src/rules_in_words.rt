// The first failure of a plan in words: what stands in the plan, and what the rule allows.
ghost use Rattle.std.specs.Prelude.{◌≡◌, string_bytes, IfOk};
ghost use Rattle.plan_sentences.specs.Places.{place_text};

use crate::carriers_in_words::carrier_in_words;
use crate::flows_in_words::{flow_in_words, sharing_in_words};
use carrier_plan::Plan;
use plan_checker::{Figures, Refused};
use std::alloc::{AllocError, Global};

/// One sentence on the first failure of a plan: the rule, the carrier or flow that fails it, and the figures.
pub fn rule_in_words(alloc: Global, refused: &Refused) -> Result<String, AllocError> {
    let place = place_in_words(alloc, refused.rule, refused.item)?;
    match refused.figures() {
        Some(figures) => {
            let reason = reason_of(alloc, &refused.plan, refused.item as usize, figures)?;
            format!(in alloc; "{place}: {reason}")
        }
        None => format!(in alloc; "{place}: docs/PLAN.md says what it asks for"),
    }
}

/// The rule, with the carrier or flow where it speaks of one.
#[tactic(auto, using(crate::proofs::Places::place_alone), unfolding(crate::specs::Places::place_text))]
pub fn place_in_words(alloc: Global, rule: u32, item: u32) -> Result<String, AllocError>
    ensures { IfOk result (λ text. string_bytes text ≡ place_text rule item) }
{
    if rule > 3 && rule < 9 {
        format!(in alloc; "rule {rule}, carrier {item}")
    } else if rule > 9 && rule < 15 {
        format!(in alloc; "rule {rule}, flow {item}")
    } else {
        format!(in alloc; "rule {rule}")
    }
}

fn reason_of(
    alloc: Global,
    plan: &Plan,
    item: usize,
    figures: Figures,
) -> Result<String, AllocError> {
    match figures {
        Figures::LineOption { option } => {
            format!(in alloc; "option is {option}, and has to be 1 to 7")
        }
        Figures::Counts { carriers, flows } => counts(alloc, carriers, flows),
        Figures::WholeFrames { flows, control, .. } => whole_frames(alloc, plan, flows, control),
        Figures::SharedOut(sharing) => sharing_in_words(alloc, sharing),
        Figures::SampleRate { .. }
        | Figures::SampleWidth { .. }
        | Figures::ContainerSize { .. }
        | Figures::ContainerEnd { .. }
        | Figures::SeparateBits { .. } => carrier_in_words(alloc, plan, item, figures),
        _ => flow_in_words(alloc, plan, item, figures),
    }
}

fn counts(alloc: Global, carriers: usize, flows: usize) -> Result<String, AllocError> {
    if (1..=64).contains(&carriers) {
        format!(in alloc; "the plan has {flows} flows, and has to have 1 to 8")
    } else {
        format!(in alloc; "the plan has {carriers} carriers, and has to have 1 to 64")
    }
}

fn whole_frames(
    alloc: Global,
    plan: &Plan,
    flows: usize,
    control: bool,
) -> Result<String, AllocError> {
    let [flow] = plan.flows.as_slice() else {
        return format!(in alloc;
            "the plan has {flows} flows, and has to have one unless its mode is aware"
        );
    };
    let carriers = plan.carriers.len();
    let list = flow.carriers.as_slice();
    if !control {
        String::from_str(alloc, "flow 0 has control = false, and has to have true")
    } else if list.len() == carriers {
        format!(in alloc; "flow 0 has carriers = {list:?}, and has to list them from 0 on in order")
    } else {
        let listed = list.len();
        format!(in alloc;
            "flow 0 lists {listed} carriers, and has to list all {carriers} unless the mode is aware"
        )
    }
}
