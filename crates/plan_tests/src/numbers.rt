// The numbers of plans that meet the rules.
use crate::plans::{LTE_PAIR, MAPPING, MAPPING_11_2_MHZ, SIMPLEST, changed};
use carrier_plan::read;
use plan_checker::{Checked, check};
use std::alloc::{AllocError, Global};
use std::process::Abort;
use std::test::Fail;

// A plan that meets the rules.
fn checked(rt: &impl Abort, alloc: Global, text: &str) -> Checked {
    let plan = read(alloc, text.as_bytes()).expect(rt, "a plan");
    check(plan).expect(rt, "a plan that meets the rules")
}

// The delay of a carrier.
fn delay(plan: &Checked, carrier: usize) -> Option<u64> {
    if carrier < plan.plan().carriers.len() {
        Some(plan.delay(carrier))
    } else {
        None
    }
}

// The samples of a carrier at a tick.
fn due(plan: &Checked, carrier: usize, tick: u64) -> Option<u32> {
    if carrier < plan.plan().carriers.len() && tick <= 1 << 40 {
        Some(plan.due(carrier, tick))
    } else {
        None
    }
}

// The greatest number of packets of the first flow that are held, and the octets of a frame in it.
fn of_first_flow(plan: &Checked) -> Option<(u64, usize)> {
    if plan.plan().flows.is_empty() {
        return None;
    }
    Some((plan.need(0), plan.frame_octets(0)))
}

// The packets of the first flow in a run, and the ticks in which it is played.
fn of_run(plan: &Checked, run: u64) -> Option<(u64, u64)> {
    if plan.plan().flows.is_empty() || run > 1 << 40 {
        return None;
    }
    Some((plan.packets(0, run), plan.ticks(run)))
}

/// Carriers of 1, 35/12 and 1/2 samples a frame.
const THREE_RATES: &str =
    "version = 1\noption = 3\nmode = \"bytes\"\nplayout = 2\n[[carrier]]\nmethod = 1\ns = 1\nk = 1\nm = 8\nstart = 0\nsize = 16\n[[carrier]]\nmethod = 1\ns = 35\nk = 12\nm = 15\nstart = 16\nsize = 88\n[[carrier]]\nmethod = 1\ns = 1\nk = 2\nm = 8\nstart = 104\nsize = 8\n[[flow]]\nid = 7\ndst = \"020000000001\"\nsrc = \"020000000002\"\ncontrol = true\ncarriers = [0, 1, 2]\nframes = 1\nlmin = 0\nlmax = 2\ncap = 3\np = 4\nq = 4\n";

/// A carrier, a tick, and the samples that are due.
const DUE: [(usize, u64, u32); 6] = [
    (1, 0, 2),
    (1, 1, 3),
    (1, 11, 3),
    (1, 1 << 40, 3),
    (2, 0, 0),
    (2, 1, 1),
];

fn assert_due(rt: &impl Abort, plan: &Checked, rows: &[(usize, u64, u32)]) {
    for (carrier, tick, expected) in rows {
        let samples = due(plan, *carrier, *tick);
        assert_eq!(rt; samples, Some(*expected), "of {carrier} at {tick}");
    }
}

#[test]
fn numbers_of_carriers(rt: HostRuntime) -> Result<(), Fail> {
    let plan = checked(&rt, rt.alloc(), THREE_RATES);
    assert_eq!(rt; plan.longest(), 12);
    for (carrier, expected) in [(0, 3), (1, 14), (2, 4)] {
        assert_eq!(rt; delay(&plan, carrier), Some(expected));
    }
    assert_due(&rt, &plan, &DUE);
    Ok(())
}

#[test]
fn numbers_of_a_flow(rt: HostRuntime) -> Result<(), Fail> {
    let plan = checked(&rt, rt.alloc(), LTE_PAIR).copy(rt.alloc())?;
    assert_eq!(rt; of_first_flow(&plan), Some((6, 64)));
    for (run, packets, ticks) in [(0, 1, 34), (1, 1, 35), (4, 2, 38)] {
        assert_eq!(rt; of_run(&plan, run), Some((packets, ticks)), "{run} ticks");
    }
    Ok(())
}

// The octets of a frame of 11.2 MHz in this mode.
fn frame_octets(rt: &impl Abort, alloc: Global, mode: &str) -> Result<Option<usize>, AllocError> {
    let plan = changed(alloc, SIMPLEST, MAPPING, MAPPING_11_2_MHZ)?;
    let plan = changed(alloc, plan.as_str(), "bytes", mode)?;
    Ok(of_first_flow(&checked(rt, alloc, plan.as_str())).map(|(_, octets)| octets))
}

#[test]
fn octets_of_a_frame(rt: HostRuntime) -> Result<(), Fail> {
    for (mode, octets) in [("tunnel", 20), ("bytes", 16), ("aware", 12)] {
        assert_eq!(rt; frame_octets(&rt, rt.alloc(), mode)?, Some(octets));
    }
    Ok(())
}

#[test]
fn octets_of_a_word(rt: HostRuntime) -> Result<(), Fail> {
    for (option, octets) in [
        ("option = 1", 1),
        ("option = 2", 2),
        ("option = 3", 4),
        ("option = 4", 5),
        ("option = 5", 8),
        ("option = 6", 10),
        ("option = 7", 16),
    ] {
        let text = changed(rt.alloc(), SIMPLEST, "option = 1", option)?;
        assert_eq!(rt;
            checked(&rt, rt.alloc(), text.as_str()).word_octets(),
            octets
        );
    }
    Ok(())
}
