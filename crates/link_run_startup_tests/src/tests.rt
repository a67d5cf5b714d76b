// Start-ups over a file and a sink in memory.
use link_base::{MemShelf, MemSink, NoMemory};
use link_run_feed::{Status, code};
use link_run_startup::play_events;
use std::alloc::Global;
use std::process::Abort;
use std::test::Fail;

const HEADER: &str = "startup 3 20 5 40\n";

/// A start-up of two ends to operation: the events after a header.
const TO_OPERATION: &str =
    "start 1\nstart 2\ntell 1\ntell 2\nhear 1\nhear 2\ntell 1\ntell 2\nhear 1\nhear 2\ntell 1\ntell 2\nhear 1\nhear 2\nagree 1\nagree 2\nend\n";

/// What these events print.
const IN_OPERATION: &str =
    "1 B 3 20\n2 B 5 40\n1 B 3 20\n2 B 5 40\n1 C 3 20\n2 C 5 40\n1 C 3 20\n2 C 5 40\n1 D 3 40\n2 D 3 40\n1 D 3 40\n2 D 3 40\n1 E 3 40\n2 E 3 40\n1 F 3 40\n2 F 3 40\nend\n";

/// What the same events print where neither end has channels to offer.
const IN_PASSIVE_LINK: &str =
    "1 B 0 0\n2 B 0 0\n1 B 0 0\n2 B 0 0\n1 C 0 0\n2 C 0 0\n1 C 0 0\n2 C 0 0\n1 D 0 0\n2 D 0 0\n1 D 0 0\n2 D 0 0\n1 G 0 0\n2 G 0 0\n1 G 0 0\n2 G 0 0\nend\n";

/// Room for every text.
const AMPLE: usize = 1_000_000;

/// A file, and what is printed up to its first bad line.
const BAD: [(&str, &str); 20] = [
    ("", "bad 1 unended\n"),
    ("startup 3 20 5 40", "bad 1 unended\n"),
    ("startup 7 20 5 40\n", "bad 1 header\n"),
    ("startup 3 19 5 40\n", "bad 1 header\n"),
    ("startup 3 20 5 64\n", "bad 1 header\n"),
    ("startup 3 20 5\n", "bad 1 header\n"),
    ("startup 3 20 5 40 \n", "bad 1 header\n"),
    ("startup 03 20 5 40\n", "bad 1 header\n"),
    ("start 3 20 5 40\n", "bad 1 header\n"),
    ("startup 3 20 5 40\n", "bad 2 unended\n"),
    ("startup 3 20 5 40\nstart\n", "bad 2 word\n"),
    ("startup 3 20 5 40\nbegin 1\n", "bad 2 word\n"),
    ("startup 3 20 5 40\nend 1\n", "bad 2 word\n"),
    ("startup 3 20 5 40\n\n", "bad 2 word\n"),
    ("startup 3 20 5 40\nstart 3\n", "bad 2 number\n"),
    ("startup 3 20 5 40\nstart \n", "bad 2 number\n"),
    ("startup 3 20 5 40\nstart 1 \n", "bad 2 number\n"),
    (
        "startup 3 20 5 40\nstart 1\nend",
        "1 B 3 20\nbad 3 unended\n",
    ),
    (
        "startup 3 20 5 40\nstart 2\nend\nx",
        "2 B 5 40\nbad 4 after\n",
    ),
    ("startup 3 20 5 40\nend\n\n", "bad 3 after\n"),
];

/// Lines before a line of 4,097 octets, and what is printed.
const LONG: [(&str, &str); 3] = [
    ("", "bad 1 long\n"),
    (HEADER, "bad 2 long\n"),
    ("startup 3 20 5 40\nend\n", "bad 3 after\n"),
];

/// A text that begins, repeats a piece so many times, and ends.
type Repeated<'a> = (&'a str, &'a str, usize, &'a str);

/// A file, what is printed of it, and the number that the program ends with.
const MANY: [(Repeated<'static>, Repeated<'static>, u8); 4] = [
    (
        (TOLD, "again 2\n", 4095, "end\n"),
        ("1 B 3 20\n1 B 3 20\n", "2 A 5 40\n", 4095, "end\n"),
        0,
    ),
    (
        (TOLD, "again 2\n", 4096, "end\n"),
        (
            "1 B 3 20\n1 B 3 20\n",
            "2 A 5 40\n",
            4095,
            "bad 4099 many\n",
        ),
        4,
    ),
    (
        (HEADER, "start 1\n", 65_536, "end\n"),
        ("", "1 B 3 20\n", 65_536, "end\n"),
        0,
    ),
    (
        (HEADER, "start 1\n", 65_537, "end\n"),
        ("", "1 B 3 20\n", 65_536, "bad 65538 many\n"),
        4,
    ),
];

/// A start-up whose first announcement is told.
const TOLD: &str = "startup 3 20 5 40\nstart 1\ntell 1\n";

fn repeated(alloc: Global, (front, piece, count, end): Repeated<'_>) -> Result<String, NoMemory> {
    let mut text = String::from_str(alloc, front)?;
    for _ in 0..count {
        text.push_str(piece)?;
    }
    text.push_str(end)?;
    Ok(text)
}

// Plays a file over a sink with so much room.
fn play(alloc: Global, file: &str, room: usize) -> Result<(Status, Vec<u8>), NoMemory> {
    let mut shelf = MemShelf::new(alloc, 4096);
    shelf.add("events", file.as_bytes())?;
    let mut out = MemSink::new(alloc, room, 4096)?;
    let status = play_events(alloc, "events", &mut shelf, &mut out);
    Ok((status, Vec::from_slice(alloc, out.octets())?))
}

// Compares what is printed of a file, and the number that the program ends with.
fn compare(rt: &impl Abort, alloc: Global, file: &str, text: &str, number: u8) -> Result<(), Fail> {
    let (status, printed) = play(alloc, file, AMPLE)?;
    assert_eq!(rt; printed.as_slice(), text.as_bytes());
    assert_eq!(rt; code(&status), number, "{text}");
    Ok(())
}

// Compares what is printed of a file that repeats a piece.
fn compare_repeated(
    rt: &impl Abort,
    alloc: Global,
    file: Repeated<'_>,
    text: Repeated<'_>,
    number: u8,
) -> Result<(), Fail> {
    let file = repeated(alloc, file)?;
    let text = repeated(alloc, text)?;
    compare(rt, alloc, file.as_str(), text.as_str(), number)
}

#[test]
fn two_ends_come_to_operation_or_to_a_passive_link(rt: HostRuntime) -> Result<(), Fail> {
    for (header, text) in [
        (HEADER, IN_OPERATION),
        ("startup 0 0 0 0\n", IN_PASSIVE_LINK),
    ] {
        let file = repeated(rt.alloc(), (header, TO_OPERATION, 1, ""))?;
        compare(&rt, rt.alloc(), file.as_str(), text, 0)?;
    }
    Ok(())
}

#[test]
fn the_first_bad_line_is_told_with_its_reason(rt: HostRuntime) -> Result<(), Fail> {
    for (file, text) in BAD {
        compare(&rt, rt.alloc(), file, text, 4)?;
    }
    Ok(())
}

#[test]
fn a_line_of_4097_octets_is_too_long(rt: HostRuntime) -> Result<(), Fail> {
    for (lines, text) in LONG {
        let file = repeated(rt.alloc(), (lines, "x", 4097, ""))?;
        compare(&rt, rt.alloc(), file.as_str(), text, 4)?;
    }
    Ok(())
}

#[test]
fn there_are_at_most_4096_announcements_and_65536_events(rt: HostRuntime) -> Result<(), Fail> {
    for (file, text, number) in MANY {
        compare_repeated(&rt, rt.alloc(), file, text, number)?;
    }
    Ok(())
}

// Compares what is written of a file with less room than its text takes.
fn compare_written(
    rt: &impl Abort,
    alloc: Global,
    file: &str,
    text: &str,
    room: usize,
) -> Result<(), Fail> {
    let (status, written) = play(alloc, file, room)?;
    let octets = text.as_bytes();
    assert!(rt; room <= octets.len());
    assert_eq!(rt; written.as_slice(), &octets[..room], "room {room}");
    assert_eq!(rt; status, Status::WriteFault, "room {room}");
    Ok(())
}

/// The text of 2,000 events is longer than what is gathered at once.
#[test]
fn a_write_fault_comes_in_any_piece_of_the_text(rt: HostRuntime) -> Result<(), Fail> {
    let file = repeated(rt.alloc(), (HEADER, "start 1\n", 2000, "end\n"))?;
    let text = repeated(rt.alloc(), ("", "1 B 3 20\n", 2000, ""))?;
    for room in [0, 1, 16_000, 16_383, 16_384, 16_385, 17_999] {
        compare_written(&rt, rt.alloc(), file.as_str(), text.as_str(), room)?;
    }
    Ok(())
}
