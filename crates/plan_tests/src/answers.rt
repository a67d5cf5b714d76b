// Plans in files in memory, and what is answered of them.
use crate::plans::{CARRIER, IN_PIECES, LTE_PAIR, MAPPING, MAPPING_11_2_MHZ, SIMPLEST, changed};
use carrier_plan::{Field, Part, PlanText, Spot};
use link_base::{MemShelf, MemSink, NoMemory};
use link_run_feed::Status;
use link_run_plan::{check_plan, on_plan};
use plan_sentences::explain_plan;
use std::alloc::Global;
use std::process::Abort;
use std::test::Fail;

const AMPLE: usize = 4096;

/// What changes in the plan of one carrier, and the answer.
const ONE_CARRIER: [Row<'static>; 13] = [
    ("", "", YES, Status::Done),
    ("start = 0", "start = 104", YES, Status::Done),
    (
        "start = 0",
        "start = 105",
        "no 7 0\n",
        Status::No { rule: 7, item: 0 },
    ),
    (
        "m = 8\nstart = 0\nsize = 16",
        "m = 3\nstart = 0\nsize = 6",
        "no 5 0\n",
        Status::No { rule: 5, item: 0 },
    ),
    (CARRIER, "", "no 2 0\n", Status::No { rule: 2, item: 0 }),
    (MAPPING, MAPPING_11_2_MHZ, YES_11_2_MHZ, Status::Done),
    (
        MAPPING,
        "method = 1\ns = 35\nk = 12\nm = 15\nstart = 0\nsize = 86\n",
        "no 6 0\n",
        Status::No { rule: 6, item: 0 },
    ),
    (
        MAPPING,
        "method = 3\ns = 35\nk = 12\nm = 15\nstart = 0\nsize = 90\n",
        YES_11_2_MHZ,
        Status::Done,
    ),
    (
        "lmin = 0\n",
        "",
        "plan missing flow 0 lmin\n",
        Status::PlanText(PlanText::Missing(Spot {
            part: Part::Flow(0),
            field: Field::Lmin,
        })),
    ),
    (
        "s = 1\n",
        "s = \"1\"\n",
        "plan kind carrier 0 s\n",
        Status::PlanText(PlanText::Kind(Spot {
            part: Part::Carrier(0),
            field: Field::S,
        })),
    ),
    (
        "\"bytes\"",
        "\"symbols\"",
        "plan value mode\n",
        Status::PlanText(PlanText::Value(Spot {
            part: Part::Top,
            field: Field::Mode,
        })),
    ),
    (
        "size = 16\n",
        "size = 16\nrate = 1\n",
        "plan extra carrier 0\n",
        Status::PlanText(PlanText::Extra(Part::Carrier(0))),
    ),
    (
        "version = 1",
        "version",
        "plan toml\n",
        Status::PlanText(PlanText::Toml),
    ),
];

/// What changes in the plan of the pair, and the answer.
const PAIR: [Row<'static>; 5] = [
    (
        "",
        "",
        "yes\ncarrier 0 delay 34\ncarrier 1 delay 34\nflow 0 holds 6\n",
        Status::Done,
    ),
    (
        "cap = 6",
        "cap = 5",
        "no 14 0\n",
        Status::No { rule: 14, item: 0 },
    ),
    (
        "p = 256\nq = 256",
        "p = 5\nq = 1",
        "no 13 0\n",
        Status::No { rule: 13, item: 0 },
    ),
    (
        "playout = 33",
        "playout = 32",
        "no 12 0\n",
        Status::No { rule: 12, item: 0 },
    ),
    (
        "start = 240",
        "start = 239",
        "no 8 1\n",
        Status::No { rule: 8, item: 1 },
    ),
];

/// What stands in place of the pieces of a container of 16 bits, in version 2 of plans, and the answer.
const PIECES: [Row<'static>; 10] = [
    ("[]", "[[0, 10], [100, 6]]", YES, Status::Done),
    (
        "[]",
        "[[0, 4], [20, 4], [40, 4], [60, 4]]",
        YES,
        Status::Done,
    ),
    (
        "[]",
        "[[0, 10], [9, 6]]",
        "no 8 0\n",
        Status::No { rule: 8, item: 0 },
    ),
    (
        "[]",
        "[[0, 10], [115, 6]]",
        "no 7 0\n",
        Status::No { rule: 7, item: 0 },
    ),
    (
        "[]",
        "[[0, 10], [100, 5]]",
        "no 6 0\n",
        Status::No { rule: 6, item: 0 },
    ),
    (
        "[]",
        "[[0, 4], [4, 4], [8, 4], [12, 2], [14, 2]]",
        "no 6 0\n",
        Status::No { rule: 6, item: 0 },
    ),
    (
        "[]",
        "[[0, 16], [16, 0]]",
        "no 6 0\n",
        Status::No { rule: 6, item: 0 },
    ),
    ("[]", "[]", "no 6 0\n", Status::No { rule: 6, item: 0 }),
    (
        "pieces = []\n",
        "start = 0\nsize = 16\n",
        "plan missing carrier 0 pieces\n",
        Status::PlanText(PlanText::Missing(Spot {
            part: Part::Carrier(0),
            field: Field::Pieces,
        })),
    ),
    (
        "[]",
        "[]\nstart = 0\n",
        "plan extra carrier 0\n",
        Status::PlanText(PlanText::Extra(Part::Carrier(0))),
    ),
];

const YES: &str = "yes\ncarrier 0 delay 3\nflow 0 holds 3\n";

const YES_11_2_MHZ: &str = "yes\ncarrier 0 delay 14\nflow 0 holds 3\n";

/// A part of a plan's text, what stands in its place, and the answer.
type Row<'a> = (&'a str, &'a str, &'a str, Status);

fn shelf_of(alloc: Global, file: &[u8]) -> Result<MemShelf, NoMemory> {
    let mut shelf = MemShelf::new(alloc, AMPLE);
    shelf.add("a", file)?;
    Ok(shelf)
}

// Checks the plan of this text.
fn check_text(alloc: Global, file: &[u8]) -> Result<(Status, Vec<u8>), NoMemory> {
    let mut shelf = shelf_of(alloc, file)?;
    let mut out = MemSink::new(alloc, AMPLE, AMPLE)?;
    let status = check_plan(alloc, "a", &mut shelf, &mut out);
    Ok((status, Vec::from_slice(alloc, out.octets())?))
}

fn assert_answer(
    rt: &impl Abort,
    alloc: Global,
    file: &[u8],
    text: &str,
    status: Status,
) -> Result<(), NoMemory> {
    let (given, written) = check_text(alloc, file)?;
    assert_eq!(rt; written.as_slice(), text.as_bytes());
    assert_eq!(rt; given, status);
    Ok(())
}

// Checks the plan once for each row.
fn assert_answers(
    rt: &impl Abort,
    alloc: Global,
    plan: &str,
    rows: &[Row<'_>],
) -> Result<(), Fail> {
    for (old, new, text, status) in rows {
        let plan = changed(alloc, plan, old, new)?;
        assert_answer(rt, alloc, plan.as_str().as_bytes(), text, *status)?;
    }
    Ok(())
}

#[test]
fn a_plan_is_answered_by_its_first_failure(rt: HostRuntime) -> Result<(), Fail> {
    for (plan, rows) in [
        (SIMPLEST, ONE_CARRIER.as_slice()),
        (LTE_PAIR, &PAIR),
        (IN_PIECES, &PIECES),
    ] {
        assert_answers(&rt, rt.alloc(), plan, rows)?;
    }
    Ok(())
}

// The plan of one carrier, with a comment up to so many octets.
fn padded(alloc: Global, count: usize) -> Result<Vec<u8>, NoMemory> {
    let mut octets = SIMPLEST.as_bytes().to_vec(alloc)?;
    octets.resize(count, b'#')?;
    Ok(octets)
}

#[test]
fn a_plan_of_65536_octets_is_read_and_a_longer_one_is_long(rt: HostRuntime) -> Result<(), Fail> {
    for (count, text, status) in [
        (65_536, YES, Status::Done),
        (65_537, "plan long\n", Status::PlanText(PlanText::Long)),
    ] {
        let octets = padded(rt.alloc(), count)?;
        assert_answer(&rt, rt.alloc(), &octets, text, status)?;
    }
    Ok(())
}

// The carriers of the plan of this name, or the status that ends the call, and what was written.
fn carriers_of(
    alloc: Global,
    name: &str,
    shelf: &mut MemShelf,
) -> Result<(Result<usize, Status>, usize), NoMemory> {
    let mut out = MemSink::new(alloc, AMPLE, AMPLE)?;
    let carriers = match on_plan(alloc, name, shelf, &mut out) {
        Ok(checked) => Ok(checked.plan().carriers.len()),
        Err(status) => Err(status),
    };
    Ok((carriers, out.octets().len()))
}

#[test]
fn a_call_goes_on_by_a_plan_that_holds(rt: HostRuntime) -> Result<(), Fail> {
    let mut shelf = shelf_of(rt.alloc(), SIMPLEST.as_bytes())?;
    for (name, carriers) in [("a", Ok(1)), ("b", Err(Status::ReadFault))] {
        assert_eq!(rt; carriers_of(rt.alloc(), name, &mut shelf)?, (carriers, 0));
    }
    explain_plan(&rt, "b", &Status::No { rule: 1, item: 0 })?;
    Ok(())
}
