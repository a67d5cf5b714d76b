// Plans at the edges of the rules, and the first rule that each fails.
use crate::plans::{
    IN_PIECES, LTE_PAIR, MAPPING, MAPPING_11_2_MHZ, SIMPLEST, TWO_FLOWS, TWO_IN_PIECES, changed,
};
use carrier_plan::{Plan, read};
use plan_checker::check;
use std::alloc::{AllocError, Global};
use std::process::Abort;
use std::test::Fail;

/// Rule and item of the first failure, or (0, 0) where every rule holds.
pub type Outcome = (u32, u32);

/// A part of a plan's text, what stands in its place, and the outcome.
pub type Row<'a> = (&'a str, &'a str, Outcome);

/// The outcome of a text that is no plan.
const NO_PLAN: Outcome = (u32::MAX, 0);

pub fn outcome(alloc: Global, text: &str) -> Outcome {
    match read(alloc, text.as_bytes()) {
        Ok(plan) => outcome_of(plan),
        Err(_) => NO_PLAN,
    }
}

fn outcome_of(plan: Plan) -> Outcome {
    match check(plan) {
        Ok(_) => (0, 0),
        Err(refused) => (refused.rule, refused.item),
    }
}

pub fn assert_outcomes(
    rt: &impl Abort,
    alloc: Global,
    plan: &str,
    rows: &[Row<'_>],
) -> Result<(), AllocError> {
    for (old, new, expected) in rows {
        let text = changed(alloc, plan, old, new)?;
        assert_eq!(rt; outcome(alloc, text.as_str()), *expected, "with {new}");
    }
    Ok(())
}

const ONE_CARRIER: [Row<'static>; 23] = [
    ("option = 1", "option = 0", (1, 0)),
    ("option = 1", "option = 1", (0, 0)),
    ("option = 1", "option = 7", (0, 0)),
    ("option = 1", "option = 8", (1, 0)),
    // The rate.
    ("k = 1", "k = 0", (4, 0)),
    ("k = 1", "k = 7", (4, 0)),
    (
        "k = 1\nm = 8\nstart = 0\nsize = 16",
        "k = 96\nm = 8\nstart = 0\nsize = 2",
        (0, 0),
    ),
    ("k = 1", "k = 100", (4, 0)),
    ("s = 1", "s = 0", (4, 0)),
    ("s = 1", "s = 33", (4, 0)),
    (
        "s = 1\nk = 1\nm = 8\nstart = 0\nsize = 16",
        "s = 3\nk = 2\nm = 8\nstart = 0\nsize = 24",
        (0, 0),
    ),
    ("s = 1\nk = 1", "s = 2\nk = 2", (4, 0)),
    // The width.
    ("m = 8", "m = 3", (5, 0)),
    (
        "m = 8\nstart = 0\nsize = 16",
        "m = 4\nstart = 0\nsize = 8",
        (0, 0),
    ),
    (
        "m = 8\nstart = 0\nsize = 16",
        "m = 20\nstart = 0\nsize = 40",
        (0, 0),
    ),
    ("m = 8", "m = 21", (5, 0)),
    ("m = 8", "m = 4294967295", (5, 0)),
    // The size of the container.
    (MAPPING, MAPPING_11_2_MHZ, (0, 0)),
    (
        MAPPING,
        "method = 3\ns = 35\nk = 12\nm = 15\nstart = 0\nsize = 90\n",
        (0, 0),
    ),
    (
        MAPPING,
        "method = 3\ns = 35\nk = 12\nm = 15\nstart = 0\nsize = 88\n",
        (6, 0),
    ),
    // Its end.
    ("start = 0", "start = 104", (0, 0)),
    ("start = 0", "start = 105", (7, 0)),
    ("start = 0", "start = 4294967295", (7, 0)),
];

/// As many samples as a frame may have. Its container then meets that of the next carrier.
const FULL_RATE: [Row<'static>; 2] = [
    (
        "s = 8\nk = 1\nm = 15\nstart = 0\nsize = 240",
        "s = 32\nk = 1\nm = 4\nstart = 0\nsize = 256",
        (8, 1),
    ),
    ("s = 8", "s = 33", (4, 0)),
];

/// Two carriers that fill option 2.
const TWO_CARRIERS: &str =
    "version = 1\noption = 2\nmode = \"bytes\"\nplayout = 2\n[[carrier]]\nmethod = 1\ns = 4\nk = 1\nm = 15\nstart = 0\nsize = 120\n[[carrier]]\nmethod = 1\ns = 4\nk = 1\nm = 15\nstart = 120\nsize = 120\n[[flow]]\nid = 7\ndst = \"020000000001\"\nsrc = \"020000000002\"\ncontrol = true\ncarriers = [0, 1]\nframes = 1\nlmin = 0\nlmax = 2\ncap = 3\np = 4\nq = 4\n";

const OF_TWO_CARRIERS: [Row<'static>; 3] = [
    ("start = 120", "start = 120", (0, 0)),
    ("start = 120", "start = 119", (8, 1)),
    ("start = 120", "start = 0", (8, 1)),
];

/// The pieces of one carrier of 16 bits.
const PIECES: [Row<'static>; 12] = [
    ("[]", "[[0, 10], [100, 6]]", (0, 0)),
    ("[]", "[[8, 8], [0, 8]]", (0, 0)),
    ("[]", "[[0, 4], [10, 4], [20, 4], [116, 4]]", (0, 0)),
    // No piece, an empty one, five, and too few bits in all.
    ("[]", "[]", (6, 0)),
    ("[]", "[[0, 16], [20, 0]]", (6, 0)),
    ("[]", "[[0, 4], [4, 4], [8, 4], [12, 2], [14, 2]]", (6, 0)),
    ("[]", "[[0, 10], [100, 5]]", (6, 0)),
    ("[]", "[[0, 4294967295], [0, 17]]", (6, 0)),
    // The end of each piece.
    ("[]", "[[0, 10], [115, 6]]", (7, 0)),
    ("[]", "[[4294967295, 10], [100, 6]]", (7, 0)),
    // A carrier's own pieces.
    ("[]", "[[0, 10], [9, 6]]", (8, 0)),
    ("[]", "[[0, 4], [20, 8], [3, 4]]", (8, 0)),
];

const PIECES_OF_TWO: [Row<'static>; 3] = [
    ("[48, 8]", "[48, 8]", (0, 0)),
    ("[48, 8]", "[47, 8]", (8, 1)),
    (
        "[[flow]]\nid = 7",
        "[[carrier]]\nmethod = 1\ns = 1\nk = 1\nm = 8\npieces = [[24, 15], [7, 1]]\n[[flow]]\nid = 7",
        (8, 2),
    ),
];

/// The carrier or flow of two that fails a rule. A rule is tried at every carrier before the next rule is.
const OF_TWO: [Row<'static>; 13] = [
    (
        "carriers = [1]\nframes = 1\nlmin = 0\nlmax = 2\ncap = 3\np = 4",
        "carriers = [1]\nframes = 1\nlmin = 0\nlmax = 2\ncap = 3\np = 1",
        (0, 0),
    ),
    (
        "s = 1\nk = 1\nm = 8\nstart = 16",
        "s = 0\nk = 1\nm = 8\nstart = 16",
        (4, 1),
    ),
    ("m = 8\nstart = 16", "m = 21\nstart = 16", (5, 1)),
    (
        "m = 8\nstart = 0\nsize = 16\n[[carrier]]\nmethod = 1\ns = 1",
        "m = 3\nstart = 0\nsize = 6\n[[carrier]]\nmethod = 1\ns = 0",
        (4, 1),
    ),
    ("start = 16\nsize = 16", "start = 16\nsize = 15", (6, 1)),
    ("start = 16", "start = 105", (7, 1)),
    ("start = 16", "start = 15", (8, 1)),
    (
        "[[flow]]\nid = 7",
        "[[carrier]]\nmethod = 1\ns = 1\nk = 1\nm = 8\nstart = 0\nsize = 16\n[[flow]]\nid = 7",
        (8, 2),
    ),
    ("[1]\nframes = 1", "[1]\nframes = 65", (10, 1)),
    (
        "[1]\nframes = 1\nlmin = 0",
        "[1]\nframes = 1\nlmin = 3",
        (11, 1),
    ),
    ("[1]\nframes = 1", "[1]\nframes = 2", (12, 1)),
    (
        "[1]\nframes = 1\nlmin = 0\nlmax = 2\ncap = 3\np = 4",
        "[1]\nframes = 1\nlmin = 0\nlmax = 2\ncap = 3\np = 0",
        (13, 1),
    ),
    (
        "[1]\nframes = 1\nlmin = 0\nlmax = 2\ncap = 3",
        "[1]\nframes = 1\nlmin = 0\nlmax = 2\ncap = 2",
        (14, 1),
    ),
];

#[test]
fn carriers_and_the_rules_that_they_fail(rt: HostRuntime) -> Result<(), Fail> {
    for (plan, rows) in [
        (SIMPLEST, ONE_CARRIER.as_slice()),
        (LTE_PAIR, &FULL_RATE),
        (TWO_CARRIERS, &OF_TWO_CARRIERS),
        (IN_PIECES, &PIECES),
        (TWO_IN_PIECES, &PIECES_OF_TWO),
        (TWO_FLOWS, &OF_TWO),
    ] {
        assert_outcomes(&rt, rt.alloc(), plan, rows)?;
    }
    Ok(())
}
