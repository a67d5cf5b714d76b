// Replays over files and a sink in memory.
use carrier_plan::{Field, Part, PlanText, Spot};
use link_base::{MemShelf, MemSink, NoMemory};
use link_run_feed::{Reason, Status};
use link_run_replay::replay_capture;
use std::alloc::Global;
use std::process::Abort;
use std::test::Fail;

mod management;
mod plans;

const AMPLE: usize = 4096;

/// One carrier of one sample in each frame, and a flow of one frame in a packet. Packet `i` may come from tick `i` to tick
/// `i + 2`, and carries the sample that leaves at tick `i + 2`.
const PLAN: &str =
    "version = 1\noption = 1\nmode = \"bytes\"\nplayout = 2\n[[carrier]]\nmethod = 1\ns = 1\nk = 1\nm = 8\nstart = 0\nsize = 16\n[[flow]]\nid = 7\ndst = \"020000000001\"\nsrc = \"020000000002\"\ncontrol = true\ncarriers = [0]\nframes = 1\nlmin = 0\nlmax = 2\ncap = 3\np = 4\nq = 4\n";

/// A part of the plan, and what stands in its place.
type Change<'a> = (&'a str, &'a str);

/// A second carrier in the same flow.
const TWO_CARRIERS: Change<'static> = (
    "[[flow]]\nid = 7\ndst = \"020000000001\"\nsrc = \"020000000002\"\ncontrol = true\ncarriers = [0]",
    "[[carrier]]\nmethod = 1\ns = 1\nk = 1\nm = 8\nstart = 16\nsize = 16\n[[flow]]\nid = 7\ndst = \"020000000001\"\nsrc = \"020000000002\"\ncontrol = true\ncarriers = [0, 1]",
);

/// The packets of the samples (5, -3), (0, 0), (1, 0) and (0, 1) by that plan, without the zeros at their ends.
const PACKET_0: &str = "020000000001020000000002fc3d0207001000000000bc0000";

const PACKET_1: &str = "020000000001020000000002fc3d020700100000000100b3aa";

/// The same with digits in capitals.
const PACKET_1_IN_CAPITALS: &str = "020000000001020000000002FC3D020700100000000100B3AA";

const PACKET_2: &str = "020000000001020000000002fc3d0207001000000002010000";

const PACKET_3: &str = "020000000001020000000002fc3d0207001000000003000100";

const PACKET_4: &str = "020000000001020000000002fc3d0207001000010000000200";

/// The 35 octets at the end of each packet.
const ZEROS: &str = "0000000000000000000000000000000000000000000000000000000000000000000000";

/// A record: its tick and its packet.
type Record<'a> = (u64, &'a str);

const ALL_IN_ORDER: [Record<'static>; 5] = [
    (0, PACKET_0),
    (1, PACKET_1),
    (2, PACKET_2),
    (3, PACKET_3),
    (4, PACKET_4),
];

const ONE_MISSED: [Record<'static>; 4] = [
    (0, PACKET_0),
    (1, PACKET_1),
    (2, PACKET_2),
    (4, PACKET_4),
];

const IN_DISORDER: [Record<'static>; 8] = [
    (2, PACKET_2),
    (2, PACKET_1_IN_CAPITALS),
    (2, PACKET_1),
    (2, PACKET_0),
    (4, PACKET_4),
    (4, PACKET_4),
    (4, PACKET_3),
    (100, PACKET_0),
];

const ONE_LATE: [Record<'static>; 5] = [
    (0, PACKET_0),
    (2, PACKET_2),
    (3, PACKET_3),
    (4, PACKET_1),
    (4, PACKET_4),
];

/// Packet 1 comes at the last tick of its window.
const ONE_AT_THE_LAST_TICK: [Record<'static>; 5] = [
    (0, PACKET_0),
    (2, PACKET_2),
    (3, PACKET_1),
    (3, PACKET_3),
    (4, PACKET_4),
];

/// Packets by a plan with three sequence numbers.
const ONE_TAKEN_FOR_ANOTHER: [Record<'static>; 5] = [
    (0, PACKET_0),
    (2, PACKET_2),
    (3, "020000000001020000000002fc3d0207001000000000000100"),
    (4, PACKET_1),
    (4, "020000000001020000000002fc3d0207001000000001000200"),
];

const STRANGERS: [Record<'static>; 3] = [
    (0, "02000000000102000000000208000207001000000000bc0000"),
    (0, "020000000001020000000002fc3d0208001000000000bc0000"),
    (0, "020000000001020000000002fc3d0207002700000000bc0000"),
];

/// What is printed where no packet is missed.
const ALL_TAKEN: &str =
    "3 0 0 5 -3\n4 0 1 0 0\n5 0 2 1 0\n6 0 3 0 1\nflow 0 taken 5 missed 0\nend\n";

/// What is changed in the plan, the length of the run, its records, and what is printed.
type Row<'a> = (&'a [Change<'a>], u64, &'a [Record<'a>], &'a str);

const ROWS: [Row<'static>; 9] = [
    (&[], 4, &ALL_IN_ORDER, ALL_TAKEN),
    (
        &[],
        4,
        &ONE_MISSED,
        "3 0 0 5 -3\n4 0 1 0 0\n5 0 2 -\n6 0 3 0 1\nflow 0 taken 4 missed 1\nend\n",
    ),
    (&[], 4, &IN_DISORDER, ALL_TAKEN),
    (&[], 4, &ONE_AT_THE_LAST_TICK, ALL_TAKEN),
    (
        &[],
        4,
        &ONE_LATE,
        "3 0 0 -\n4 0 1 0 0\n5 0 2 1 0\n6 0 3 0 1\nflow 0 taken 4 missed 1\nend\n",
    ),
    (
        &[("p = 4\nq = 4", "p = 3\nq = 1")],
        4,
        &ONE_TAKEN_FOR_ANOTHER,
        "3 0 0 -\n4 0 1 0 0\n5 0 2 1 0\n6 0 3 5 -3\nflow 0 taken 4 missed 1\nend\n",
    ),
    (
        &[],
        1,
        &STRANGERS,
        "3 0 0 -\nflow 0 taken 0 missed 2\nend\n",
    ),
    (&[], 0, &[], "flow 0 taken 0 missed 1\nend\n"),
    (
        &[TWO_CARRIERS],
        4,
        &ALL_IN_ORDER,
        "3 0 0 5 -3\n3 1 0 0 0\n4 0 1 0 0\n4 1 1 0 0\n5 0 2 1 0\n5 1 2 0 0\n6 0 3 0 1\n6 1 3 0 0\nflow 0 taken 5 missed 0\nend\n",
    ),
];

/// A capture, its first bad line and why it is, and what is printed.
const BAD: [(&str, u64, Reason, &str); 5] = [
    (
        "capture 1\n0 00\nend",
        3,
        Reason::Unended,
        "bad 3 unended\n",
    ),
    (
        "capture 1\n5 00\n4 00\nend\n",
        3,
        Reason::Order,
        "3 0 0 -\nbad 3 order\n",
    ),
    ("capture 1\n0 000\n", 2, Reason::Hex, "bad 2 hex\n"),
    ("capture 1\nend\nx\n", 3, Reason::After, "bad 3 after\n"),
    ("capture 4097\n", 1, Reason::Header, "bad 1 header\n"),
];

/// A part of the plan, what stands in its place, what is printed, and the status.
const REFUSED: [(&str, &str, &str, Status); 2] = [
    (
        "cap = 3",
        "cap = 2",
        "no 14 0\n",
        Status::No { rule: 14, item: 0 },
    ),
    (
        "lmin = 0\n",
        "",
        "plan missing flow 0 lmin\n",
        Status::PlanText(PlanText::Missing(Spot {
            part: Part::Flow(0),
            field: Field::Lmin,
        })),
    ),
];

/// Plays the capture, if it is there, by the plan.
fn play(alloc: Global, plan: &str, capture: Option<&str>) -> Result<(Status, Vec<u8>), NoMemory> {
    let mut shelf = MemShelf::new(alloc, AMPLE);
    shelf.add("plan", plan.as_bytes())?;
    if let Some(octets) = capture {
        shelf.add("capture", octets.as_bytes())?;
    }
    let mut out = MemSink::new(alloc, AMPLE, AMPLE)?;
    let status = replay_capture(alloc, "plan", "capture", &mut shelf, &mut out);
    Ok((status, Vec::from_slice(alloc, out.octets())?))
}

/// The capture of a run of so many ticks.
fn capture_of(alloc: Global, ticks: u64, records: &[Record<'_>]) -> Result<String, NoMemory> {
    let mut file = String::new(alloc);
    writeln!(file, "capture {ticks}")?;
    for (tick, packet) in records {
        writeln!(file, "{tick} {packet}{ZEROS}")?;
    }
    file.push_str("end\n")?;
    Ok(file)
}

/// The plan with these changes.
fn changed(alloc: Global, changes: &[Change<'_>]) -> Result<String, NoMemory> {
    let mut plan = String::from_str(alloc, PLAN)?;
    for (old, new) in changes {
        plan = plan.replacen(alloc, *old, *new, 1)?;
    }
    Ok(plan)
}

// Plays the capture, if it is there, by the plan, and compares what is printed.
fn compare(
    rt: &impl Abort,
    alloc: Global,
    plan: &str,
    capture: Option<&str>,
    text: &str,
    status: Status,
) -> Result<(), Fail> {
    let (given, printed) = play(alloc, plan, capture)?;
    assert_eq!(rt; printed.as_slice(), text.as_bytes(), "{capture:?}");
    assert_eq!(rt; given, status, "{capture:?}");
    Ok(())
}

// Compares what is printed of a row.
fn compare_row(rt: &impl Abort, alloc: Global, row: &Row<'_>) -> Result<(), Fail> {
    let (changes, ticks, records, text) = *row;
    let plan = changed(alloc, changes)?;
    let capture = capture_of(alloc, ticks, records)?;
    let capture = Some(capture.as_str());
    compare(rt, alloc, plan.as_str(), capture, text, Status::Done)
}

#[test]
fn a_packet_counts_where_a_record_comes_in_its_window(rt: HostRuntime) -> Result<(), Fail> {
    for row in &ROWS {
        compare_row(&rt, rt.alloc(), row)?;
    }
    Ok(())
}

#[test]
fn the_first_bad_line_is_told_after_the_settled_text(rt: HostRuntime) -> Result<(), Fail> {
    for (capture, line, reason, text) in BAD {
        let status = Status::FeedBad { line, reason };
        compare(&rt, rt.alloc(), PLAN, Some(capture), text, status)?;
    }
    Ok(())
}

#[test]
fn a_plan_that_is_refused_is_answered_without_the_capture(rt: HostRuntime) -> Result<(), Fail> {
    for (old, new, text, status) in REFUSED {
        let plan = PLAN.replacen(rt.alloc(), old, new, 1)?;
        compare(&rt, rt.alloc(), plan.as_str(), None, text, status)?;
    }
    Ok(())
}
