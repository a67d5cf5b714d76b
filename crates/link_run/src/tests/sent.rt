// What is sent of a file of samples, replayed.
use super::*;

/// The parts of the plan that are others, a file of samples, and what the replay of what is sent of it prints.
type Row = (
    &'static [(&'static str, &'static str)],
    &'static str,
    &'static str,
);

/// Two LTE carriers of 20 MHz, and four frames in a packet.
const LTE: &[(&str, &str)] = &[
    ("option = 1", "option = 3"),
    ("playout = 2", "playout = 33"),
    (
        "s = 1\nk = 1\nm = 8\nstart = 0\nsize = 16",
        "s = 8\nk = 1\nm = 15\nstart = 0\nsize = 240\n[[carrier]]\nmethod = 1\ns = 8\nk = 1\nm = 15\nstart = 240\nsize = 240",
    ),
    (
        "carriers = [0]\nframes = 1\nlmin = 0\nlmax = 2\ncap = 3\np = 4\nq = 4",
        "carriers = [0, 1]\nframes = 4\nlmin = 10\nlmax = 30\ncap = 6\np = 256\nq = 256",
    ),
];

/// Four samples of eight bits, and what is printed of them.
const FOUR: &str = "samples 4\n5 -3\n0 0\n1 0\n0 1\nend\n";

const FOUR_REPLAYED: &str =
    "3 0 0 5 -3\n4 0 1 0 0\n5 0 2 1 0\n6 0 3 0 1\nflow 0 taken 5 missed 0\nend\n";

const ROWS: [Row; 8] = [
    (&[], FOUR, FOUR_REPLAYED),
    (&[("bytes", "aware")], FOUR, FOUR_REPLAYED),
    (&[("bytes", "tunnel")], FOUR, FOUR_REPLAYED),
    (
        &[
            ("version = 1", "version = 2"),
            ("start = 0\nsize = 16", "pieces = [[0, 10], [100, 6]]"),
        ],
        FOUR,
        FOUR_REPLAYED,
    ),
    // A sample in two frames.
    (
        &[("k = 1\nm = 8", "k = 2\nm = 15")],
        "samples 4\n1 -1\n16383 -16384\nend\n",
        "5 0 0 1 -1\n7 0 1 16383 -16384\nflow 0 taken 6 missed 0\nend\n",
    ),
    (
        LTE,
        "samples 1\n0 0\n0 0\n0 0\n0 0\n0 0\n0 0\n0 0\n0 0\n0 0\n0 0\n0 0\n0 0\n0 0\n0 0\n0 0\n0 0\nend\n",
        "34 0 0 0 0\n34 0 1 0 0\n34 0 2 0 0\n34 0 3 0 0\n34 0 4 0 0\n34 0 5 0 0\n34 0 6 0 0\n34 0 7 0 0\n34 1 0 0 0\n34 1 1 0 0\n34 1 2 0 0\n34 1 3 0 0\n34 1 4 0 0\n34 1 5 0 0\n34 1 6 0 0\n34 1 7 0 0\nflow 0 taken 1 missed 0\nend\n",
    ),
    // A frame of the fast channel, whose last group stands in frame 33.
    (
        &[],
        "samples2 33 0 20\nfast a5\n0 0\n0 0\n0 0\n0 0\n0 0\n0 0\n0 0\n0 0\n0 0\n0 0\n0 0\n0 0\n0 0\n0 0\n0 0\n0 0\n0 0\n0 0\n0 0\n0 0\n0 0\n0 0\n0 0\n0 0\n0 0\n0 0\n0 0\n0 0\n0 0\n0 0\n0 0\n0 0\n0 0\nend\n",
        "3 0 0 0 0\n4 0 1 0 0\n5 0 2 0 0\n6 0 3 0 0\n7 0 4 0 0\n8 0 5 0 0\n9 0 6 0 0\n10 0 7 0 0\n11 0 8 0 0\n12 0 9 0 0\n13 0 10 0 0\n14 0 11 0 0\n15 0 12 0 0\n16 0 13 0 0\n17 0 14 0 0\n18 0 15 0 0\n19 0 16 0 0\n20 0 17 0 0\n21 0 18 0 0\n22 0 19 0 0\n23 0 20 0 0\n24 0 21 0 0\n25 0 22 0 0\n26 0 23 0 0\n27 0 24 0 0\n28 0 25 0 0\n29 0 26 0 0\n30 0 27 0 0\n31 0 28 0 0\n32 0 29 0 0\n33 0 30 0 0\n34 0 31 0 0\n35 0 32 0 0\n35 fast a5\nflow 0 taken 34 missed 0\nend\n",
    ),
    // A frame of the slow channel, which is whole in the one control word of frame 1.
    (
        &[("option = 1", "option = 7")],
        "samples2 2 6 0\nslow 313233343536373839\n0 0\n0 0\nend\n",
        "3 0 0 0 0\n3 slow 313233343536373839\n4 0 1 0 0\nflow 0 taken 3 missed 0\nend\n",
    ),
];

/// The plan with these parts changed.
fn changed(alloc: Global, changes: &[(&str, &str)]) -> Result<String, NoMemory> {
    let mut plan = String::from_str(alloc, PLAN.content)?;
    for (old, new) in changes {
        plan = plan.replacen(alloc, *old, *new, 1)?;
    }
    Ok(plan)
}

// Sends the samples by the plan, and replays what is sent.
fn replayed(alloc: Global, plan: &str, samples: &str) -> Result<Outcome, NoMemory> {
    let mut shelf = MemShelf::new(alloc, AMPLE);
    shelf.add("plan", plan.as_bytes())?;
    shelf.add("samples", samples.as_bytes())?;
    let sent = answer(
        alloc,
        &["send", "plan", "samples"],
        &mut shelf,
        2 * AMPLE,
        AMPLE,
    )?;
    shelf.add("capture", sent.text.as_slice())?;
    answer(
        alloc,
        &["replay", "plan", "capture"],
        &mut shelf,
        AMPLE,
        AMPLE,
    )
}

// Compares what is printed of a row.
fn compare_row(rt: &impl Abort, alloc: Global, row: &Row) -> Result<(), Fail> {
    let (changes, samples, text) = *row;
    let plan = changed(alloc, changes)?;
    let outcome = replayed(alloc, plan.as_str(), samples)?;
    assert_eq!(rt; outcome.text.as_slice(), text.as_bytes(), "{samples}");
    assert_eq!(rt; outcome.status, Status::Done, "{samples}");
    Ok(())
}

#[test]
fn what_is_sent_is_replayed(rt: HostRuntime) -> Result<(), Fail> {
    for row in &ROWS {
        compare_row(&rt, rt.alloc(), row)?;
    }
    Ok(())
}
