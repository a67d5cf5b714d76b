// Plans at the edges of the rules on flows.
use crate::plans::{LTE_PAIR, SIMPLEST, TWO_FLOWS, changed};
use crate::rules::{Outcome, Row, assert_outcomes, outcome};
use std::alloc::{AllocError, Global};
use std::process::Abort;
use std::test::Fail;

/// The keys of a plan before its carriers.
const TOP: &str = "version = 1\noption = 7\nmode = \"aware\"\nplayout = 2\n";

/// The keys of a flow before its number and its carriers.
const FRONT: &str = "[[flow]]\ndst = \"020000000001\"\nsrc = \"020000000002\"\n";

/// The keys of a flow of one frame in a packet.
const PROMPT: &str = "frames = 1\nlmin = 0\nlmax = 2\ncap = 3\np = 4\nq = 4\n";

fn put_carriers(alloc: Global, text: &mut String, count: u32) -> Result<(), AllocError> {
    for number in 0..count {
        let start = 8 * u64::from(number);
        let carrier = format!(in alloc;
            "[[carrier]]\nmethod = 1\ns = 1\nk = 1\nm = 4\nstart = {start}\nsize = 8\n"
        )?;
        text.push_str(carrier.as_str())?;
    }
    Ok(())
}

// A plan of one flow that lists so many carriers.
fn plan_of_carriers(alloc: Global, count: u32) -> Result<String, AllocError> {
    let mut text = String::from_str(alloc, TOP)?;
    put_carriers(alloc, &mut text, count)?;
    let mut list = String::new(alloc);
    for number in 0..count {
        let listed = format!(in alloc; "{number}, ")?;
        list.push_str(listed.as_str())?;
    }
    format!(in alloc; "{text}{FRONT}id = 7\ncontrol = true\ncarriers = [{list}]\n{PROMPT}")
}

#[test]
fn as_many_carriers_as_a_plan_may_have(rt: HostRuntime) -> Result<(), Fail> {
    for (count, expected) in [(0, (2, 0)), (1, (0, 0)), (64, (0, 0)), (65, (2, 0))] {
        let plan = plan_of_carriers(rt.alloc(), count)?;
        assert_eq!(rt;
            outcome(rt.alloc(), plan.as_str()),
            expected,
            "{count} carriers"
        );
    }
    Ok(())
}

// A plan of so many flows, the first with control, each of the carrier of its number.
fn plan_of_flows(alloc: Global, count: u32) -> Result<String, AllocError> {
    let mut text = String::from_str(alloc, TOP)?;
    put_carriers(alloc, &mut text, count.max(1))?;
    for id in 0..count {
        let control = id == 0;
        let flow = format!(in alloc;
            "{FRONT}id = {id}\ncontrol = {control}\ncarriers = [{id}]\n{PROMPT}"
        )?;
        text.push_str(flow.as_str())?;
    }
    Ok(text)
}

#[test]
fn as_many_flows_as_a_plan_may_have(rt: HostRuntime) -> Result<(), Fail> {
    for (count, expected) in [(0, (2, 0)), (1, (0, 0)), (8, (0, 0)), (9, (2, 0))] {
        let plan = plan_of_flows(rt.alloc(), count)?;
        assert_eq!(rt;
            outcome(rt.alloc(), plan.as_str()),
            expected,
            "{count} flows"
        );
    }
    Ok(())
}

/// A second flow, which has no carriers.
const WITHOUT_CARRIERS: &str =
    "q = 256\n[[flow]]\nid = 8\ndst = \"020000000001\"\nsrc = \"020000000002\"\ncontrol = false\ncarriers = []\nframes = 4\nlmin = 10\nlmax = 30\ncap = 6\np = 256\nq = 256\n";

/// One flow carries whole frames.
const WHOLE_FRAMES: [Row<'static>; 5] = [
    ("[0, 1]", "[0, 1]", (0, 0)),
    ("control = true", "control = false", (3, 0)),
    ("[0, 1]", "[0]", (3, 0)),
    ("[0, 1]", "[1, 0]", (3, 0)),
    ("q = 256\n", WITHOUT_CARRIERS, (3, 0)),
];

/// In mode `aware` flows share out the carriers.
const ONE_FLOW: [Row<'static>; 7] = [
    ("[0, 1]", "[0, 1]", (0, 0)),
    // A list out of order, a carrier in no flow, one twice, and one that is not there.
    ("[0, 1]", "[1, 0]", (9, 0)),
    ("[0, 1]", "[0]", (9, 0)),
    ("[0, 1]", "[0, 1, 1]", (9, 0)),
    ("[0, 1]", "[0, 1, 2]", (9, 0)),
    ("control = true", "control = false", (9, 0)),
    // The second flow has an empty payload.
    ("q = 256\n", WITHOUT_CARRIERS, (10, 1)),
];

const SHARED_OUT: [Row<'static>; 5] = [
    ("id = 8", "id = 255", (0, 0)),
    ("id = 8", "id = 256", (9, 0)),
    ("id = 8", "id = 7", (9, 0)),
    ("[0]", "[0, 1]", (9, 0)),
    ("control = false", "control = true", (9, 0)),
];

/// Two LTE carriers in one flow.
const OF_LTE_PAIR: [Row<'static>; 5] = [
    ("playout = 33", "playout = 33", (0, 0)),
    ("playout = 33", "playout = 32", (12, 0)),
    ("p = 256\nq = 256", "p = 6\nq = 1", (0, 0)),
    ("p = 256\nq = 256", "p = 5\nq = 1", (13, 0)),
    ("cap = 6", "cap = 5", (14, 0)),
];

/// One carrier of option 7 in mode `aware`, with 20 bits of I and of Q. The payload of a packet is F times 71 octets: the
/// control word and a container of 440 bits.
const LARGE: &str =
    "version = 1\noption = 7\nmode = \"aware\"\nplayout = 40\n[[carrier]]\nmethod = 1\ns = 11\nk = 1\nm = 20\nstart = 0\nsize = 440\n[[flow]]\nid = 7\ndst = \"020000000001\"\nsrc = \"020000000002\"\ncontrol = true\ncarriers = [0]\nframes = 21\nlmin = 0\nlmax = 2\ncap = 3\np = 4\nq = 4\n";

const OF_LARGE: [Row<'static>; 2] = [
    ("frames = 21", "frames = 21", (0, 0)),
    ("frames = 21", "frames = 22", (10, 0)),
];

/// The same with a container of 536 bits, so that the payload is F times 83 octets.
const LARGER: &str =
    "version = 1\noption = 7\nmode = \"aware\"\nplayout = 40\n[[carrier]]\nmethod = 1\ns = 67\nk = 5\nm = 20\nstart = 0\nsize = 536\n[[flow]]\nid = 7\ndst = \"020000000001\"\nsrc = \"020000000002\"\ncontrol = true\ncarriers = [0]\nframes = 17\nlmin = 0\nlmax = 2\ncap = 3\np = 4\nq = 4\n";

const OF_LARGER: [Row<'static>; 2] = [
    ("frames = 17", "frames = 17", (0, 0)),
    ("frames = 17", "frames = 18", (10, 0)),
];

#[test]
fn flows_and_the_rules_that_they_fail(rt: HostRuntime) -> Result<(), Fail> {
    for (plan, rows) in [
        (LTE_PAIR, OF_LTE_PAIR.as_slice()),
        (TWO_FLOWS, &SHARED_OUT),
        (LARGE, &OF_LARGE),
        (LARGER, &OF_LARGER),
    ] {
        assert_outcomes(&rt, rt.alloc(), plan, rows)?;
    }
    Ok(())
}

#[test]
fn flows_share_out_the_carriers(rt: HostRuntime) -> Result<(), Fail> {
    for (mode, rows) in [
        ("tunnel", WHOLE_FRAMES.as_slice()),
        ("bytes", &WHOLE_FRAMES),
        ("aware", &ONE_FLOW),
    ] {
        let plan = changed(rt.alloc(), LTE_PAIR, "bytes", mode)?;
        assert_outcomes(&rt, rt.alloc(), plan.as_str(), rows)?;
    }
    Ok(())
}

/// The playout of the simplest plan, a part of its flow, and what stands in its place.
type NumbersRow<'a> = (&'a str, &'a str, &'a str, Outcome);

const NUMBERS: [NumbersRow<'static>; 21] = [
    // The frames of a packet.
    ("playout = 2", "frames = 1", "frames = 0", (10, 0)),
    ("playout = 100", "frames = 1", "frames = 64", (0, 0)),
    ("playout = 100", "frames = 1", "frames = 65", (10, 0)),
    // The window.
    ("playout = 2", "lmin = 0", "lmin = 2", (0, 0)),
    ("playout = 2", "lmin = 0", "lmin = 3", (11, 0)),
    (
        "playout = 100000",
        "lmin = 0\nlmax = 2",
        "lmin = 100000\nlmax = 100000",
        (0, 0),
    ),
    (
        "playout = 100001",
        "lmin = 0\nlmax = 2",
        "lmin = 100001\nlmax = 100001",
        (11, 0),
    ),
    ("playout = 2", "lmax = 2", "lmax = 4294967295", (11, 0)),
    // The playout.
    (
        "playout = 200000",
        "frames = 1\nlmin = 0\nlmax = 2\ncap = 3",
        "frames = 64\nlmin = 100000\nlmax = 100000\ncap = 4096",
        (0, 0),
    ),
    (
        "playout = 200001",
        "frames = 1\nlmin = 0\nlmax = 2\ncap = 3",
        "frames = 64\nlmin = 100000\nlmax = 100000\ncap = 4096",
        (12, 0),
    ),
    // The sequence numbers.
    (
        "playout = 2",
        "p = 4\nq = 4",
        "p = 65536\nq = 65536",
        (0, 0),
    ),
    ("playout = 2", "p = 4\nq = 4", "p = 65537\nq = 1", (13, 0)),
    ("playout = 2", "p = 4\nq = 4", "p = 1\nq = 65537", (13, 0)),
    ("playout = 2", "p = 4\nq = 4", "p = 0\nq = 4", (13, 0)),
    ("playout = 2", "p = 4\nq = 4", "p = 4\nq = 0", (13, 0)),
    // The buffer.
    (
        "playout = 2",
        "lmin = 0\nlmax = 2\ncap = 3",
        "lmin = 2\nlmax = 2\ncap = 1",
        (0, 0),
    ),
    (
        "playout = 2",
        "lmin = 0\nlmax = 2\ncap = 3",
        "lmin = 2\nlmax = 2\ncap = 0",
        (14, 0),
    ),
    ("playout = 4095", "cap = 3", "cap = 4096", (0, 0)),
    ("playout = 4096", "cap = 3", "cap = 4096", (14, 0)),
    ("playout = 2", "cap = 3", "cap = 4097", (14, 0)),
    ("playout = 2", "cap = 3", "cap = 4096", (0, 0)),
];

fn assert_numbers(
    rt: &impl Abort,
    alloc: Global,
    rows: &[NumbersRow<'_>],
) -> Result<(), AllocError> {
    for (playout, old, new, expected) in rows {
        let plan = changed(alloc, SIMPLEST, "playout = 2", playout)?;
        let plan = changed(alloc, plan.as_str(), old, new)?;
        assert_eq!(rt;
            outcome(alloc, plan.as_str()),
            *expected,
            "{playout} and {new}"
        );
    }
    Ok(())
}

#[test]
fn one_flow_at_the_edges_of_its_rules(rt: HostRuntime) -> Result<(), Fail> {
    assert_numbers(&rt, rt.alloc(), &NUMBERS)?;
    Ok(())
}
