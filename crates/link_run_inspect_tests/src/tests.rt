// Lines over a file and a sink in memory.
use link_base::{MemShelf, MemSink, NoMemory};
use link_run_feed::{Reason, Status};
use link_run_inspect::inspect;
use std::alloc::Global;
use std::process::Abort;
use std::test::Fail;

/// The first frame of an option 1 line, of which each octet but the comma is 0.
const FRAME: &str = "7c196db4d1461b6db4d1461b6db4d1461b6db4d1\n";

/// The same frame with its first symbol damaged.
const DAMAGED: &str = "7d196db4d1461b6db4d1461b6db4d1461b6db4d1\n";

/// A frame of symbols that nothing spells.
const SILENT: &str = "0000000000000000000000000000000000000000\n";

/// As many digits, without a line feed.
const DIGITS: &str = "0000000000000000000000000000000000000000";

/// The pieces of a file, and what is printed of it.
const GOOD: [(&[&str], &str); 4] = [
    (&["line 1 1\n", FRAME, "end\n"], "0 sync found\nend 1 0\n"),
    (&["line 1 1\n", DAMAGED, "end\n"], "end 1 1\n"),
    (
        &["line 1 2\n", FRAME, SILENT, "end\n"],
        "0 sync found\n1 los on\nend 2 16\n",
    ),
    (&["line 7 0\n", "end\n"], "end 0 0\n"),
];

/// The pieces of a file, its first bad line and why it is, and what is printed.
const BAD: [(&[&str], u64, Reason, &str); 9] = [
    (&["line 0 1\n"], 1, Reason::Header, "bad 1 header\n"),
    (&["line 8 1\n"], 1, Reason::Header, "bad 1 header\n"),
    (&["line 1 1 1\n"], 1, Reason::Header, "bad 1 header\n"),
    (&["line 1 2097153\n"], 1, Reason::Header, "bad 1 header\n"),
    (&["line 1 1\n", "end\n"], 2, Reason::Count, "bad 2 count\n"),
    (&["line 1 0\n", FRAME], 2, Reason::Count, "bad 2 count\n"),
    (
        &["line 1 2\n", FRAME, "7c\n"],
        3,
        Reason::Hex,
        "0 sync found\nbad 3 hex\n",
    ),
    (
        &["line 1 1\n", FRAME],
        3,
        Reason::Unended,
        "0 sync found\nbad 3 unended\n",
    ),
    (
        &["line 1 1\n", FRAME, "end\n", "x"],
        4,
        Reason::After,
        "0 sync found\nbad 4 after\n",
    ),
];

// The file of these pieces.
fn file_of(alloc: Global, pieces: &[&str]) -> Result<String, NoMemory> {
    let mut file = String::new(alloc);
    for piece in pieces {
        file.push_str(piece)?;
    }
    Ok(file)
}

// Reads a file.
fn read(alloc: Global, file: &str) -> Result<(Status, Vec<u8>), NoMemory> {
    let mut shelf = MemShelf::new(alloc, 4096);
    shelf.add("line", file.as_bytes())?;
    let mut out = MemSink::new(alloc, 4096, 4096)?;
    let status = inspect(alloc, "line", &mut shelf, &mut out);
    Ok((status, Vec::from_slice(alloc, out.octets())?))
}

// Compares what is printed of the file of these pieces.
fn compare(
    rt: &impl Abort,
    alloc: Global,
    pieces: &[&str],
    text: &str,
    status: Status,
) -> Result<(), Fail> {
    let file = file_of(alloc, pieces)?;
    let (given, printed) = read(alloc, file.as_str())?;
    assert_eq!(rt; printed.as_slice(), text.as_bytes(), "{file}");
    assert_eq!(rt; given, status, "{file}");
    Ok(())
}

#[test]
fn what_frames_show(rt: HostRuntime) -> Result<(), Fail> {
    for (pieces, text) in GOOD {
        compare(&rt, rt.alloc(), pieces, text, Status::Done)?;
    }
    Ok(())
}

#[test]
fn the_first_bad_line(rt: HostRuntime) -> Result<(), Fail> {
    for (pieces, line, reason, text) in BAD {
        let status = Status::FeedBad { line, reason };
        compare(&rt, rt.alloc(), pieces, text, status)?;
    }
    Ok(())
}

#[test]
fn a_line_of_more_than_4096_octets(rt: HostRuntime) -> Result<(), Fail> {
    let mut pieces = Vec::new(rt.alloc());
    pieces.push("line 1 1\n")?;
    for _ in 0..103 {
        pieces.push(DIGITS)?;
    }
    let status = Status::FeedBad {
        line: 2,
        reason: Reason::Long,
    };
    compare(&rt, rt.alloc(), pieces.as_slice(), "bad 2 long\n", status)
}
