// The rules on flows in words, for a plan or a flow that fails one.
use carrier_plan::{Flow, Plan};
use plan_checker::{Figures, Sharing};
use std::alloc::{AllocError, Global};

/// How flows fail to share out the carriers and the control words.
pub fn sharing_in_words(alloc: Global, sharing: Sharing) -> Result<String, AllocError> {
    match sharing {
        Sharing::LargeId { flow, id } => {
            format!(in alloc; "flow {flow} has id {id}, and an id has to be at most 255")
        }
        Sharing::SameId { earlier, flow, id } => {
            format!(in alloc;
                "flows {earlier} and {flow} have id {id}, and have to have different ones"
            )
        }
        Sharing::NoCarrier {
            flow,
            number,
            carriers,
        } => {
            format!(in alloc;
                "flow {flow} lists carrier {number}, and the plan has {carriers} carriers, numbered from 0"
            )
        }
        Sharing::NotAscending {
            flow,
            number,
            before,
        } => {
            format!(in alloc;
                "flow {flow} lists carrier {number} after carrier {before}, and a list has to ascend"
            )
        }
        Sharing::Flows { carrier, count } => {
            format!(in alloc; "carrier {carrier} is in {count} flows, and has to be in one")
        }
        Sharing::Controls { count } => {
            format!(in alloc; "{count} flows have control, and one has to have it")
        }
    }
}

/// What fails at flow `f` by these figures, and what the rule allows.
pub fn flow_in_words(
    alloc: Global,
    plan: &Plan,
    f: usize,
    figures: Figures,
) -> Result<String, AllocError> {
    let Some(flow) = plan.flows.as_slice().get(f) else {
        return String::from_str(alloc, "the plan has no such flow");
    };
    match figures {
        Figures::PayloadSize {
            frames,
            octets,
            payload,
        } => payload_size(alloc, frames, octets, payload),
        Figures::ArrivalWindow { lmin, lmax } => arrival_window(alloc, lmin, lmax),
        Figures::PlayedInTime { playout, least } => played_in_time(alloc, flow, playout, least),
        Figures::SequenceNumbers {
            p,
            q,
            numbers,
            needed,
        } => sequence_numbers(alloc, flow, [p, q], numbers, needed),
        Figures::BufferRoom { cap, needed } => buffer_room(alloc, plan.playout, flow, cap, needed),
        _ => String::from_str(alloc, "docs/PLAN.md says what the rule asks for"),
    }
}

fn payload_size(
    alloc: Global,
    frames: u32,
    octets: u64,
    payload: u64,
) -> Result<String, AllocError> {
    if !(1..=64).contains(&frames) {
        return format!(in alloc; "its frames are {frames}, and have to be 1 to 64");
    }
    format!(in alloc;
        "its payload is {frames} frames of {octets} octets, in all {payload}, and has to be 1 to 1492 octets"
    )
}

fn arrival_window(alloc: Global, lmin: u32, lmax: u32) -> Result<String, AllocError> {
    if lmin > lmax {
        format!(in alloc; "its lmin is {lmin}, and has to be at most its lmax of {lmax}")
    } else {
        format!(in alloc; "its lmax is {lmax}, and has to be at most 100000")
    }
}

fn played_in_time(
    alloc: Global,
    flow: &Flow,
    playout: u32,
    least: u64,
) -> Result<String, AllocError> {
    let Flow { frames, lmax, .. } = flow;
    if u64::from(playout) < least {
        format!(in alloc;
            "playout is {playout}, and has to be at least frames - 1 + lmax = {frames} - 1 + {lmax} = {least}"
        )
    } else {
        format!(in alloc; "playout is {playout}, and has to be at most 200000")
    }
}

fn sequence_numbers(
    alloc: Global,
    flow: &Flow,
    counts: [u32; 2],
    numbers: u64,
    needed: u64,
) -> Result<String, AllocError> {
    let [p, q] = counts;
    if !(1..=65_536).contains(&p) {
        return format!(in alloc; "its p is {p}, and has to be 1 to 65536");
    }
    if !(1..=65_536).contains(&q) {
        return format!(in alloc; "its q is {q}, and has to be 1 to 65536");
    }
    let Flow {
        frames,
        lmin,
        lmax,
        ..
    } = flow;
    format!(in alloc;
        "its p * q is {p} * {q} = {numbers}, and has to be at least {needed} for lmin = {lmin}, lmax = {lmax}, frames = {frames}"
    )
}

fn buffer_room(
    alloc: Global,
    playout: u32,
    flow: &Flow,
    cap: u32,
    needed: u64,
) -> Result<String, AllocError> {
    let Flow { frames, lmin, .. } = flow;
    if needed > 4_096 {
        format!(in alloc;
            "it has to hold {needed} packets for playout = {playout}, lmin = {lmin}, frames = {frames}, and may hold at most 4096"
        )
    } else {
        format!(in alloc; "its cap is {cap}, and has to be {needed} to 4096")
    }
}
