// What people are told of a plan that is refused.
use crate::plans::{CARRIER, FLOW, IN_PIECES, SIMPLEST, TWO_FLOWS, TWO_IN_PIECES, changed};
use carrier_plan::{Plan, ReadError, read};
use plan_checker::check;
use plan_sentences::{fault_in_words, rule_in_words};
use std::alloc::{AllocError, Global};
use std::process::Abort;
use std::test::Fail;

/// A carrier of 32 samples in each frame with 20 bits of I and of Q, and a flow of nine frames in a packet.
const LARGE: &str =
    "version = 1\noption = 7\nmode = \"bytes\"\nplayout = 20\n[[carrier]]\nmethod = 1\ns = 32\nk = 1\nm = 20\nstart = 0\nsize = 1280\n[[flow]]\nid = 7\ndst = \"020000000001\"\nsrc = \"020000000002\"\ncontrol = true\ncarriers = [0]\nframes = 9\nlmin = 0\nlmax = 2\ncap = 3\np = 4\nq = 4\n";

/// A part of a plan's text, what stands in its place, and the sentence.
type Row<'a> = (&'a str, &'a str, &'a str);

fn sentence_on(alloc: Global, text: &str) -> Result<String, AllocError> {
    match read(alloc, text.as_bytes()) {
        Ok(plan) => sentence_of(alloc, plan),
        Err(ReadError::Text(fault)) => fault_in_words(alloc, text.as_bytes(), fault),
        Err(ReadError::NoMemory) => String::from_str(alloc, "out of memory"),
    }
}

fn sentence_of(alloc: Global, plan: Plan) -> Result<String, AllocError> {
    match check(plan) {
        Ok(_) => String::from_str(alloc, "every rule holds"),
        Err(refused) => rule_in_words(alloc, &refused),
    }
}

// Asks for the sentence on the plan once for each row.
fn assert_sentences(
    rt: &impl Abort,
    alloc: Global,
    plan: &str,
    rows: &[Row<'_>],
) -> Result<(), Fail> {
    for (old, new, sentence) in rows {
        let plan = changed(alloc, plan, old, new)?;
        assert_eq!(rt; sentence_on(alloc, plan.as_str())?.as_str(), *sentence);
    }
    Ok(())
}

const OF_PLAN: [Row<'static>; 7] = [
    ("option = 1", "option = 1", "every rule holds"),
    (
        "option = 1",
        "option = 9",
        "rule 1: option is 9, and has to be 1 to 7",
    ),
    (
        CARRIER,
        "",
        "rule 2: the plan has 0 carriers, and has to have 1 to 64",
    ),
    (
        FLOW,
        "",
        "rule 2: the plan has 0 flows, and has to have 1 to 8",
    ),
    (
        "control = true",
        "control = false",
        "rule 3: flow 0 has control = false, and has to have true",
    ),
    (
        "[0]",
        "[1]",
        "rule 3: flow 0 has carriers = [1], and has to list them from 0 on in order",
    ),
    (
        "[0]",
        "[]",
        "rule 3: flow 0 lists 0 carriers, and has to list all 1 unless the mode is aware",
    ),
];

const OF_CARRIER: [Row<'static>; 10] = [
    (
        "k = 1",
        "k = 0",
        "rule 4, carrier 0: its k is 0, and has to divide 38400",
    ),
    (
        "k = 1",
        "k = 7",
        "rule 4, carrier 0: its k is 7, and has to divide 38400",
    ),
    (
        "k = 1",
        "k = 100",
        "rule 4, carrier 0: its k is 100, and has to be at most 96",
    ),
    (
        "s = 1",
        "s = 33",
        "rule 4, carrier 0: its s is 33, and has to be 1 to 32 * k = 32",
    ),
    (
        "s = 1\nk = 1",
        "s = 16\nk = 2",
        "rule 4, carrier 0: its rate s/k is 16/2, and has to be in lowest terms",
    ),
    (
        "m = 8",
        "m = 4294967295",
        "rule 5, carrier 0: its m is 4294967295, and has to be 4 to 20",
    ),
    (
        "s = 1\nk = 1\nm = 8\nstart = 0\nsize = 16",
        "s = 35\nk = 12\nm = 15\nstart = 0\nsize = 86",
        "rule 6, carrier 0: its size is 86, and 88 is prescribed, 2 * ceil(15 * 35 / 12) by method 1",
    ),
    (
        "method = 1\ns = 1\nk = 1\nm = 8\nstart = 0\nsize = 16",
        "method = 3\ns = 35\nk = 12\nm = 15\nstart = 0\nsize = 88",
        "rule 6, carrier 0: its size is 88, and 90 is prescribed, 2 * 15 * ceil(35 / 12) by method 3",
    ),
    (
        "start = 0",
        "start = 105",
        "rule 7, carrier 0: its start + size is 105 + 16 = 121, and has to be at most 120, the IQ bits of a frame on option 1",
    ),
    (
        "start = 0",
        "start = 4294967295",
        "rule 7, carrier 0: its start + size is 4294967295 + 16 = 4294967311, and has to be at most 120, the IQ bits of a frame on option 1",
    ),
];

const OF_PIECES: [Row<'static>; 6] = [
    (
        "[]",
        "[]",
        "rule 6, carrier 0: it has 0 pieces, and has to have 1 to 4",
    ),
    (
        "[]",
        "[[0, 10], [100, 5]]",
        "rule 6, carrier 0: the sizes of its 2 pieces add up to 15, and 16 is prescribed, 2 * ceil(8 * 1 / 1) by method 1",
    ),
    (
        "[]",
        "[[0, 10], [115, 6]]",
        "rule 7, carrier 0: start + size of its piece 1 is 115 + 6 = 121, and has to be at most 120, the IQ bits of a frame on option 1",
    ),
    (
        "[]",
        "[[0, 10], [9, 6]]",
        "rule 8, carrier 0: piece 1 of carrier 0 and piece 0 of carrier 0 share the IQ bits 9 to 9, and have to be apart",
    ),
    (
        "[]",
        "[[0, 10, 1], [100, 6]]",
        "pieces of carrier 0 is an array with an array of 3, and has to be an array of pairs [start, size] of whole numbers from 0 to 4294967295",
    ),
    (
        "pieces =",
        "places =",
        "carrier 0 has no pieces, which has to be an array of pairs [start, size] of whole numbers from 0 to 4294967295",
    ),
];

const OF_SHARED_PIECES: [Row<'static>; 2] = [
    ("[48, 8]", "[48, 8]", "every rule holds"),
    (
        "[48, 8]",
        "[44, 8]",
        "rule 8, carrier 1: piece 1 of carrier 1 and piece 1 of carrier 0 share the IQ bits 44 to 47, and have to be apart",
    ),
];

const SHARED: [Row<'static>; 11] = [
    ("id = 8", "id = 9", "every rule holds"),
    (
        "\"aware\"",
        "\"bytes\"",
        "rule 3: the plan has 2 flows, and has to have one unless its mode is aware",
    ),
    (
        "start = 16",
        "start = 15",
        "rule 8, carrier 1: carrier 1 and carrier 0 share the IQ bits 15 to 15, and have to be apart",
    ),
    (
        "id = 8",
        "id = 256",
        "rule 9: flow 1 has id 256, and an id has to be at most 255",
    ),
    (
        "id = 8",
        "id = 7",
        "rule 9: flows 0 and 1 have id 7, and have to have different ones",
    ),
    (
        "[1]",
        "[2]",
        "rule 9: flow 1 lists carrier 2, and the plan has 2 carriers, numbered from 0",
    ),
    (
        "[1]",
        "[1, 0]",
        "rule 9: flow 1 lists carrier 0 after carrier 1, and a list has to ascend",
    ),
    (
        "[1]",
        "[]",
        "rule 9: carrier 1 is in 0 flows, and has to be in one",
    ),
    (
        "control = false",
        "control = true",
        "rule 9: 2 flows have control, and one has to have it",
    ),
    (
        "carriers = [0]\nframes = 1",
        "carriers = [0]\nframes = 65",
        "rule 10, flow 0: its frames are 65, and have to be 1 to 64",
    ),
    (
        "carriers = [1]\nframes = 1",
        "carriers = [1]\nframes = 0",
        "rule 10, flow 1: its frames are 0, and have to be 1 to 64",
    ),
];

const OF_FLOW: [Row<'static>; 9] = [
    (
        "lmin = 0",
        "lmin = 3",
        "rule 11, flow 0: its lmin is 3, and has to be at most its lmax of 2",
    ),
    (
        "lmax = 2",
        "lmax = 100001",
        "rule 11, flow 0: its lmax is 100001, and has to be at most 100000",
    ),
    (
        "frames = 1\nlmin = 0\nlmax = 2",
        "frames = 4\nlmin = 0\nlmax = 3",
        "rule 12, flow 0: playout is 2, and has to be at least frames - 1 + lmax = 4 - 1 + 3 = 6",
    ),
    (
        "playout = 2",
        "playout = 200001",
        "rule 12, flow 0: playout is 200001, and has to be at most 200000",
    ),
    (
        "p = 4",
        "p = 0",
        "rule 13, flow 0: its p is 0, and has to be 1 to 65536",
    ),
    (
        "q = 4",
        "q = 65537",
        "rule 13, flow 0: its q is 65537, and has to be 1 to 65536",
    ),
    (
        "p = 4\nq = 4",
        "p = 2\nq = 1",
        "rule 13, flow 0: its p * q is 2 * 1 = 2, and has to be at least 3 for lmin = 0, lmax = 2, frames = 1",
    ),
    (
        "cap = 3",
        "cap = 2",
        "rule 14, flow 0: its cap is 2, and has to be 3 to 4096",
    ),
    (
        "playout = 2",
        "playout = 4096",
        "rule 14, flow 0: it has to hold 4097 packets for playout = 4096, lmin = 0, frames = 1, and may hold at most 4096",
    ),
];

// Option 7 has words of 16 octets: 16 of them are 256 octets, and 320 as symbols. A container of 1,280 bits has 160.
const OF_PAYLOAD: [Row<'static>; 3] = [
    (
        "bytes",
        "tunnel",
        "rule 10, flow 0: its payload is 9 frames of 320 octets, in all 2880, and has to be 1 to 1492 octets",
    ),
    (
        "bytes",
        "bytes",
        "rule 10, flow 0: its payload is 9 frames of 256 octets, in all 2304, and has to be 1 to 1492 octets",
    ),
    (
        "bytes",
        "aware",
        "rule 10, flow 0: its payload is 9 frames of 176 octets, in all 1584, and has to be 1 to 1492 octets",
    ),
];

/// What changes in a plan, and what is said of the fault.
const FAULTS: [Row<'static>; 10] = [
    (
        "option = 1",
        "option = ",
        "line 2, column 10: this is not TOML: invalid value, expected a string, number, boolean, date-time, array or inline table",
    ),
    (
        "playout = 2\n",
        "",
        "the plan has no playout, which has to be a whole number from 0 to 4294967295",
    ),
    (
        "size = 16\n",
        "",
        "carrier 0 has no size, which has to be a whole number from 0 to 4294967295",
    ),
    (
        "size = 16",
        "size = \"16\"",
        "size of carrier 0 is the text \"16\", and has to be a whole number from 0 to 4294967295",
    ),
    (
        "method = 1",
        "method = 2",
        "method of carrier 0 is 2, and has to be 1 or 3",
    ),
    (
        "[0]",
        "[0, -1]",
        "carriers of flow 0 is an array with -1, and has to be an array of whole numbers from 0 to 4294967295",
    ),
    (
        "\"bytes\"",
        "\"byte\"",
        "mode of the plan is the text \"byte\", and has to be \"tunnel\", \"bytes\" or \"aware\"",
    ),
    (
        "control = true",
        "control = 1",
        "control of flow 0 is 1, and has to be true or false",
    ),
    (
        CARRIER,
        "carrier = [{}]\n",
        "carrier 0 has no method, which has to be 1 or 3",
    ),
    (
        "cap = 3\n",
        "cap = 3\nsize = 1\n",
        "flow 0 has the key \"size\", and may have these alone: [\"id\", \"dst\", \"src\", \"control\", \"carriers\", \"frames\", \"lmin\", \"lmax\", \"cap\", \"p\", \"q\"]",
    ),
];

#[test]
fn a_refused_plan_is_told_of_with_its_figures(rt: HostRuntime) -> Result<(), Fail> {
    for (plan, rows) in [
        (SIMPLEST, OF_PLAN.as_slice()),
        (SIMPLEST, &OF_CARRIER),
        (IN_PIECES, &OF_PIECES),
        (TWO_IN_PIECES, &OF_SHARED_PIECES),
        (TWO_FLOWS, &SHARED),
        (SIMPLEST, &OF_FLOW),
        (LARGE, &OF_PAYLOAD),
        (SIMPLEST, &FAULTS),
    ] {
        assert_sentences(&rt, rt.alloc(), plan, rows)?;
    }
    Ok(())
}
