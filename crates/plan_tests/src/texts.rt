// Plans read from text, the first fault of a text that is none, and plans as text.
use crate::plans::{SIMPLEST, changed};
use carrier_plan::{ReadError, print, read};
use std::alloc::{AllocError, Global};
use std::process::Abort;
use std::test::Fail;

/// A plan of one carrier, without a flow.
const PLAN: &str =
    "version = 1\noption = 1\nmode = \"bytes\"\nplayout = 2\n[[carrier]]\nmethod = 1\ns = 1\nk = 1\nm = 8\nstart = 0\nsize = 16\n";

/// A plan of two carriers and one flow, of addresses in digits of both cases.
const USUAL: &str =
    "version = 1\noption = 3\nmode = \"bytes\"\nplayout = 33\n[[carrier]]\nmethod = 1\ns = 8\nk = 1\nm = 15\nstart = 0\nsize = 240\n[[carrier]]\nmethod = 3\ns = 8\nk = 1\nm = 15\nstart = 240\nsize = 240\n[[flow]]\nid = 7\ndst = \"02000000000A\"\nsrc = \"0200000000aB\"\ncontrol = true\ncarriers = [0, 1]\nframes = 4\nlmin = 10\nlmax = 30\ncap = 6\np = 256\nq = 257\n";

/// A plan of one carrier in two pieces.
const IN_PIECES: &str =
    "version = 2\noption = 1\nmode = \"aware\"\nplayout = 0\n[[carrier]]\nmethod = 1\ns = 1\nk = 1\nm = 8\npieces = [[0, 10], [100, 6]]\n";

/// The keys of a plan before its carriers.
const TOP: &str = "version = 1\noption = 1\nmode = \"aware\"\nplayout = 0\n";

/// The same, and a carrier without its container.
const CARRIER: &str =
    "version = 1\noption = 1\nmode = \"aware\"\nplayout = 0\n[[carrier]]\nmethod = 1\ns = 1\nk = 1\nm = 8\n";

/// The same in version 2 of plans.
const CARRIER_OF_PIECES: &str =
    "version = 2\noption = 1\nmode = \"aware\"\nplayout = 0\n[[carrier]]\nmethod = 1\ns = 1\nk = 1\nm = 8\n";

/// A text, or the end of one, and the line that tells of its fault.
type FaultRow<'a> = (&'a str, &'a str);

const OF_TOP: [FaultRow<'static>; 17] = [
    ("version", "plan toml"),
    ("version = 1\nversion = 1\n", "plan toml"),
    ("", "plan missing version"),
    ("rate = 1\nmode = 7\n", "plan missing version"),
    ("version = 1.0\n", "plan kind version"),
    ("version = 0\n", "plan value version"),
    ("version = 3\n", "plan value version"),
    ("version = 2\n", "plan missing option"),
    ("version = 1\n", "plan missing option"),
    ("version = 1\noption = \"1\"\n", "plan kind option"),
    ("version = 1\noption = -1\n", "plan value option"),
    ("version = 1\noption = 4294967296\n", "plan value option"),
    ("version = 1\noption = 4294967295\n", "plan missing mode"),
    ("version = 1\noption = 1\nmode = 5\n", "plan kind mode"),
    (
        "version = 1\noption = 1\nmode = \"symbols\"\n",
        "plan value mode",
    ),
    (
        "version = 1\noption = 1\nmode = \"tunnel\"\n",
        "plan missing playout",
    ),
    (
        "version = 1\noption = 1\nmode = \"aware\"\nplayout = true\n",
        "plan kind playout",
    ),
];

/// Texts after a good top.
const AFTER_TOP: [FaultRow<'static>; 17] = [
    ("", "a plan"),
    ("carrier = []\n", "a plan"),
    ("flow = []\n", "a plan"),
    ("carrier = 5\nrate = 1\n", "plan extra top"),
    ("carrier = 5\n", "plan kind carrier"),
    ("carrier = [{}, 5]\n", "plan missing carrier 0 method"),
    (
        "[[carrier]]\nmethod = \"1\"\n",
        "plan kind carrier 0 method",
    ),
    ("[[carrier]]\nmethod = 2\n", "plan value carrier 0 method"),
    (
        "[[carrier]]\nmethod = 3\ns = \"1\"\n",
        "plan kind carrier 0 s",
    ),
    (
        "[[carrier]]\nmethod = 3\ns = 1\nk = 1\nm = 8\nstart = 0\n",
        "plan missing carrier 0 size",
    ),
    (
        "[[carrier]]\nmethod = 3\ns = 1\nk = 1\nm = 8\nstart = 0\nsize = -1\nrate = 1\n",
        "plan value carrier 0 size",
    ),
    (
        "[[carrier]]\nmethod = 3\ns = 1\nk = 1\nm = 8\nstart = 0\nsize = 16\nrate = 1\n",
        "plan extra carrier 0",
    ),
    (
        "carrier = [{method = 3, s = 1, k = 1, m = 8, start = 0, size = 16}, 5]\n",
        "plan kind carrier 1 carrier",
    ),
    ("flow = 5\n", "plan kind flow"),
    ("flow = [{}, 5]\n", "plan missing flow 0 id"),
    ("flow = [5, {}]\n", "plan kind flow 0 flow"),
    ("flow = 5\ncarrier = 5\n", "plan kind carrier"),
];

/// Containers in version 1 of plans.
const OF_CONTAINER: [FaultRow<'static>; 3] = [
    ("start = 0\nsize = 16\n", "a plan"),
    ("pieces = [[0, 16]]\n", "plan missing carrier 0 start"),
    (
        "start = 0\nsize = 16\npieces = [[0, 16]]\n",
        "plan extra carrier 0",
    ),
];

/// Containers in version 2 of plans.
const OF_PIECES: [FaultRow<'static>; 13] = [
    ("start = 0\nsize = 16\n", "plan missing carrier 0 pieces"),
    ("pieces = [[0, 16]]\nstart = 0\n", "plan extra carrier 0"),
    ("pieces = [[0, 16]]\nsize = 16\n", "plan extra carrier 0"),
    // How many pieces there are and how long they are is for the rules.
    ("pieces = []\n", "a plan"),
    (
        "pieces = [[0, 0], [0, 4], [4, 4], [8, 4], [12, 4]]\n",
        "a plan",
    ),
    ("pieces = 16\n", "plan kind carrier 0 pieces"),
    ("pieces = [0, 16]\n", "plan kind carrier 0 pieces"),
    ("pieces = [[0, 10], [100]]\n", "plan kind carrier 0 pieces"),
    ("pieces = [[0, 10, 1]]\n", "plan kind carrier 0 pieces"),
    ("pieces = [[0, \"10\"]]\n", "plan kind carrier 0 pieces"),
    // The kinds of all elements are tried before their values.
    (
        "pieces = [[-1, 10], [100, 6.0]]\n",
        "plan kind carrier 0 pieces",
    ),
    (
        "pieces = [[0, 10], [100, -6]]\n",
        "plan value carrier 0 pieces",
    ),
    (
        "pieces = [[4294967296, 16]]\n",
        "plan value carrier 0 pieces",
    ),
];

/// A part of the flow's text, what stands in its place, and the line.
const OF_FLOW: [(&str, &str, &str); 14] = [
    ("lmin = 0\n", "", "plan missing flow 0 lmin"),
    ("id = 7\n", "id = \"7\"\n", "plan kind flow 0 id"),
    ("id = 7\n", "id = -7\n", "plan value flow 0 id"),
    ("dst = \"02", "dst = 2 # ", "plan kind flow 0 dst"),
    ("dst = \"02", "dst = \"2", "plan value flow 0 dst"),
    ("src = \"02", "src = \"0202", "plan value flow 0 src"),
    ("src = \"02", "src = \"0g", "plan value flow 0 src"),
    ("true", "1", "plan kind flow 0 control"),
    ("[0]", "0", "plan kind flow 0 carriers"),
    ("[0]", "[-1, \"0\"]", "plan kind flow 0 carriers"),
    ("[0]", "[0, -1]", "plan value flow 0 carriers"),
    ("[0]", "[]", "a plan"),
    ("q = 4\n", "q = 4\nrate = 1\n", "plan extra flow 0"),
    ("q = 4\n", "q = 4\n[[flow]]\n", "plan missing flow 1 id"),
];

/// Texts, and what their plans are. A container by `start` and `size` is one piece.
const PLANS: [(&str, &str); 3] = [
    (
        PLAN,
        "Plan { option: 1, mode: Bytes, playout: 2, carriers: CarrierList { carriers: [Carrier { method: Sample, s: 1, k: 1, m: 8, pieces: PieceList { pieces: [Piece { start: 0, size: 16 }] } }] }, flows: FlowList { flows: [] } }",
    ),
    (
        USUAL,
        "Plan { option: 3, mode: Bytes, playout: 33, carriers: CarrierList { carriers: [Carrier { method: Sample, s: 8, k: 1, m: 15, pieces: PieceList { pieces: [Piece { start: 0, size: 240 }] } }, Carrier { method: Compatible, s: 8, k: 1, m: 15, pieces: PieceList { pieces: [Piece { start: 240, size: 240 }] } }] }, flows: FlowList { flows: [Flow { id: 7, dst: [2, 0, 0, 0, 0, 10], src: [2, 0, 0, 0, 0, 171], control: true, carriers: NumberList { numbers: [0, 1] }, frames: 4, lmin: 10, lmax: 30, cap: 6, p: 256, q: 257 }] } }",
    ),
    (
        IN_PIECES,
        "Plan { option: 1, mode: Aware, playout: 0, carriers: CarrierList { carriers: [Carrier { method: Sample, s: 1, k: 1, m: 8, pieces: PieceList { pieces: [Piece { start: 0, size: 10 }, Piece { start: 100, size: 6 }] } }] }, flows: FlowList { flows: [] } }",
    ),
];

// The line that tells of the fault.
fn told(alloc: Global, octets: &[u8]) -> Result<String, AllocError> {
    match read(alloc, octets) {
        Ok(_) => String::from_str(alloc, "a plan"),
        Err(ReadError::Text(fault)) => String::from_str(alloc, fault.line().as_str()),
        Err(error) => error.to_string(alloc),
    }
}

fn assert_told(rt: &impl Abort, alloc: Global, text: &str, line: &str) -> Result<(), Fail> {
    assert_eq!(rt; told(alloc, text.as_bytes())?.as_str(), line, "at {text}");
    Ok(())
}

// Reads each text behind this front.
fn assert_faults(
    rt: &impl Abort,
    alloc: Global,
    front: &str,
    rows: &[FaultRow<'_>],
) -> Result<(), Fail> {
    for (rest, line) in rows {
        let text = format!(in alloc; "{front}{rest}")?;
        assert_told(rt, alloc, text.as_str(), line)?;
    }
    Ok(())
}

fn assert_changes(
    rt: &impl Abort,
    alloc: Global,
    plan: &str,
    rows: &[(&str, &str, &str)],
) -> Result<(), Fail> {
    for (old, new, line) in rows {
        let text = changed(alloc, plan, old, new)?;
        assert_told(rt, alloc, text.as_str(), line)?;
    }
    Ok(())
}

#[test]
fn the_first_fault_is_named(rt: HostRuntime) -> Result<(), Fail> {
    for (front, rows) in [
        ("", OF_TOP.as_slice()),
        (TOP, &AFTER_TOP),
        (CARRIER, &OF_CONTAINER),
        (CARRIER_OF_PIECES, &OF_PIECES),
    ] {
        assert_faults(&rt, rt.alloc(), front, rows)?;
    }
    Ok(())
}

#[test]
fn the_first_fault_of_a_flow_is_named(rt: HostRuntime) -> Result<(), Fail> {
    assert_changes(&rt, rt.alloc(), SIMPLEST, &OF_FLOW)
}

// A plan of so many octets, the last of which is this one in a comment.
fn padded(alloc: Global, count: usize, last: u8) -> Result<Vec<u8>, AllocError> {
    let mut octets = PLAN.as_bytes().to_vec(alloc)?;
    octets.resize(count.saturating_sub(1), b'#')?;
    octets.push(last)?;
    Ok(octets)
}

// The length is tried first, and then whether the octets are UTF-8.
#[test]
fn a_plan_has_at_most_65536_octets(rt: HostRuntime) -> Result<(), Fail> {
    for (count, last, line) in [
        (65_536, b'#', "a plan"),
        (65_537, b'#', "plan long"),
        (65_537, 0xff, "plan long"),
        (65_536, 0xff, "plan utf8"),
    ] {
        let octets = padded(rt.alloc(), count, last)?;
        assert_eq!(rt; octets.len(), count);
        assert_eq!(rt; told(rt.alloc(), &octets)?.as_str(), line, "{count} octets");
    }
    Ok(())
}

// What the plan of these octets is.
fn shown(alloc: Global, octets: &[u8]) -> Result<String, Fail> {
    let plan = read(alloc, octets)?;
    Ok(format!(in alloc; "{plan:?}")?)
}

// A copy of the plan of these octets, as text.
fn printed(alloc: Global, octets: &[u8]) -> Result<Vec<u8>, Fail> {
    let plan = read(alloc, octets)?;
    Ok(print(alloc, &plan.copy(alloc)?)?)
}

// A plan stays the same through a copy and through text.
#[test]
fn plans_are_read_and_read_back(rt: HostRuntime) -> Result<(), Fail> {
    for (text, plan) in PLANS {
        assert_eq!(rt; shown(rt.alloc(), text.as_bytes())?.as_str(), plan);
        let again = printed(rt.alloc(), text.as_bytes())?;
        assert_eq!(rt; shown(rt.alloc(), &again)?.as_str(), plan);
    }
    Ok(())
}
