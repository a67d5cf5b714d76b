// What is sent of files of samples, over files and a sink in memory.
use link_base::{MemShelf, MemSink, NoMemory};
use link_run_feed::{Status, code};
use link_run_send::{line_samples, send_samples};
use std::alloc::Global;
use std::process::Abort;
use std::test::Fail;

const AMPLE: usize = 8192;

/// The 37 octets at the end of a packet behind its first octet of payload.
const ZEROS: &str = "00000000000000000000000000000000000000000000000000000000000000000000000000";

/// One carrier of one sample in each frame, and a flow of one frame in a packet.
const PLAN: &str =
    "version = 1\noption = 1\nmode = \"bytes\"\nplayout = 2\n[[carrier]]\nmethod = 1\ns = 1\nk = 1\nm = 8\nstart = 0\nsize = 16\n[[flow]]\nid = 7\ndst = \"020000000001\"\nsrc = \"020000000002\"\ncontrol = true\ncarriers = [0]\nframes = 1\nlmin = 0\nlmax = 2\ncap = 3\np = 4\nq = 4\n";

/// Two LTE carriers of 20 MHz in line option 3, and four frames in a packet.
const LTE: &str =
    "version = 1\noption = 3\nmode = \"bytes\"\nplayout = 33\n[[carrier]]\nmethod = 1\ns = 8\nk = 1\nm = 15\nstart = 0\nsize = 240\n[[carrier]]\nmethod = 1\ns = 8\nk = 1\nm = 15\nstart = 240\nsize = 240\n[[flow]]\nid = 7\ndst = \"020000000001\"\nsrc = \"020000000002\"\ncontrol = true\ncarriers = [0, 1]\nframes = 4\nlmin = 10\nlmax = 30\ncap = 6\np = 256\nq = 256\n";

/// What the call does with the samples.
#[derive(Clone, Copy, Debug, PartialEq, Eq)]
enum Call {
    Send,
    Line,
}

/// A call of a plan with changes: its first line, the lines between, each of which is filled with zeros to so many octets, and the
/// last one.
struct Row<'a> {
    call: Call,
    changes: &'a [(&'a str, &'a str)],
    samples: &'a str,
    first: &'a str,
    width: usize,
    lines: &'a [&'a str],
    last: &'a str,
}

const HALF_RATE: &[(&str, &str)] = &[("k = 1\nm = 8", "k = 2\nm = 15")];

const IN_PIECES: (&str, &str) = ("start = 0\nsize = 16", "pieces = [[0, 10], [100, 6]]");

const VERSION_2: (&str, &str) = ("version = 1", "version = 2");

/// The octets of a line with a packet of 60 octets, whose tick has one digit.
const SHORTEST: usize = 122;

const ROWS: [Row<'static>; 22] = [
    Row {
        call: Call::Send,
        changes: &[],
        samples: "samples 4\n5 -3\n0 0\n1 0\n0 1\nend\n",
        first: "capture 4",
        width: SHORTEST,
        lines: &[
            "0 020000000001020000000002fc3d0207001000000000bc",
            "1 020000000001020000000002fc3d020700100000000100b3aa",
            "2 020000000001020000000002fc3d02070010000000020100",
            "3 020000000001020000000002fc3d0207001000000003000100",
            "4 020000000001020000000002fc3d0207001000010000000200",
        ],
        last: "end",
    },
    Row {
        call: Call::Send,
        changes: HALF_RATE,
        samples: "samples 4\n1 -1\n16383 -16384\nend\n",
        first: "capture 4",
        width: SHORTEST,
        lines: &[
            "0 020000000001020000000002fc3d0207001000000000bc",
            "1 020000000001020000000002fc3d0207001000000001",
            "2 020000000001020000000002fc3d020700100000000201abaa",
            "3 020000000001020000000002fc3d020700100000000300aa2a",
            "4 020000000001020000000002fc3d0207001000010000005555",
            "5 020000000001020000000002fc3d0207001000010001005525",
        ],
        last: "end",
    },
    Row {
        call: Call::Send,
        changes: &[("bytes", "tunnel")],
        samples: "samples 1\n5 -3\nend\n",
        first: "capture 1",
        width: SHORTEST,
        lines: &[
            "0 020000000001020000000002fc3d02070014000000007c196db4d1461b6db4d1461b6db4d1461b6db4d1",
            "1 020000000001020000000002fc3d0207001400000001464fa596d1461b6db4d1461b6db4d1461b6db4d1",
        ],
        last: "end",
    },
    Row {
        call: Call::Send,
        changes: &[("bytes", "aware")],
        samples: "samples 1\n5 -3\nend\n",
        first: "capture 1",
        width: SHORTEST,
        lines: &[
            "0 020000000001020000000002fc3d0307000300000000bc",
            "1 020000000001020000000002fc3d030700030000000100b3aa",
        ],
        last: "end",
    },
    Row {
        call: Call::Send,
        changes: &[VERSION_2, IN_PIECES],
        samples: "samples 1\n5 -3\nend\n",
        first: "capture 1",
        width: SHORTEST,
        lines: &[
            "0 020000000001020000000002fc3d0207001000000000bc",
            "1 020000000001020000000002fc3d020700100000000100b30200000000000000000000a002",
        ],
        last: "end",
    },
    Row {
        call: Call::Send,
        changes: &[VERSION_2, IN_PIECES, ("bytes", "aware")],
        samples: "samples 1\n5 -3\nend\n",
        first: "capture 1",
        width: SHORTEST,
        lines: &[
            "0 020000000001020000000002fc3d0307000300000000bc",
            "1 020000000001020000000002fc3d030700030000000100b3aa",
        ],
        last: "end",
    },
    // The packet of four frames leaves ten ticks after the last of them, which is frame 3. Frame 2 has the version.
    Row {
        call: Call::Send,
        changes: &[(PLAN, LTE)],
        samples: "samples 1\n0 0\n0 0\n0 0\n0 0\n0 0\n0 0\n0 0\n0 0\n0 0\n0 0\n0 0\n0 0\n0 0\n0 0\n0 0\n0 0\nend\n",
        first: "capture 1",
        width: 559,
        lines: &[
            "13 020000000001020000000002fc3d0207010000000000bc5050500000000000000000000000000000000000000000000000000000000000000000000000000000000000000000000000000000000000000000000000000000000000000000000000000000000000000000000000000000000000000000000000000000000000000000000000000000000000000000000000000000000001",
        ],
        last: "end",
    },
    // All octets of word 1 are of the slow channel: a flag, the nine octets, their check sum, and flags.
    Row {
        call: Call::Send,
        changes: &[("option = 1", "option = 7")],
        samples: "samples2 2 6 0\nslow 313233343536373839\n0 0\n0 0\nend\n",
        first: "capture2 2 6 0",
        width: 558,
        lines: &[
            "0 020000000001020000000002fc3d0207010000000000bc505050505050505050505050505050",
            "1 020000000001020000000002fc3d02070100000000017e3132333435363738396e907e7e7e7e",
            "2 020000000001020000000002fc3d020701000000000201",
        ],
        last: "end",
    },
    Row {
        call: Call::Line,
        changes: &[],
        samples: "samples 0\nend\n",
        first: "line 1 1",
        width: 40,
        lines: &["7c196db4d1461b6db4d1461b6db4d1461b6db4d1"],
        last: "end",
    },
    Row {
        call: Call::Line,
        changes: &[("option = 1", "option = 2")],
        samples: "samples 0\nend\n",
        first: "line 2 1",
        width: 80,
        lines: &[
            "7c259a4b2eb9e4924b2eb9e4924b2eb9e4924b2eb9e4924b2eb9e4924b2eb9e4924b2eb9e4924b2e",
        ],
        last: "end",
    },
    Row {
        call: Call::Line,
        changes: &[],
        samples: "samples 1\n128 0\nend\n",
        first: "line 1 2",
        width: SHORTEST,
        lines: &[],
        last: "bad 2 range",
    },
    Row {
        call: Call::Send,
        changes: &[],
        samples: "samples 1\n128 0\nend\n",
        first: "capture 1",
        width: SHORTEST,
        lines: &[],
        last: "bad 2 range",
    },
    Row {
        call: Call::Send,
        changes: &[],
        samples: "samples 2\n127 -128\n0 -129\nend\n",
        first: "capture 2",
        width: SHORTEST,
        lines: &["0 020000000001020000000002fc3d0207001000000000bc"],
        last: "bad 3 range",
    },
    Row {
        call: Call::Send,
        changes: &[],
        samples: "samples 1\n5 -0\nend\n",
        first: "capture 1",
        width: SHORTEST,
        lines: &[],
        last: "bad 2 number",
    },
    Row {
        call: Call::Send,
        changes: &[],
        samples: "samples 1\nend\n",
        first: "capture 1",
        width: SHORTEST,
        lines: &[],
        last: "bad 2 count",
    },
    Row {
        call: Call::Send,
        changes: &[],
        samples: "samples 0\n0 0\nend\n",
        first: "capture 0",
        width: SHORTEST,
        lines: &[],
        last: "bad 2 count",
    },
    Row {
        call: Call::Send,
        changes: &[],
        samples: "samples 1\nslow aa\n0 0\nend\n",
        first: "capture 1",
        width: SHORTEST,
        lines: &[],
        last: "bad 2 number",
    },
    Row {
        call: Call::Send,
        changes: &[],
        samples: "samples2 1 0 0\nslow aa\n",
        first: "capture2 1 0 0",
        width: SHORTEST,
        lines: &[],
        last: "bad 2 word",
    },
    Row {
        call: Call::Send,
        changes: &[],
        samples: "samples2 1 1 0\nfast aa\n",
        first: "capture2 1 1 0",
        width: SHORTEST,
        lines: &[],
        last: "bad 2 word",
    },
    Row {
        call: Call::Send,
        changes: &[],
        samples: "samples2 2 1 0\n0 0\nslow aa\n0 0\nend\n",
        first: "capture2 2 1 0",
        width: SHORTEST,
        lines: &["0 020000000001020000000002fc3d0207001000000000bc"],
        last: "bad 3 word",
    },
    Row {
        call: Call::Send,
        changes: &[],
        samples: "samples2 1 1 0\nslow aaa\n",
        first: "capture2 1 1 0",
        width: SHORTEST,
        lines: &[],
        last: "bad 2 hex",
    },
    // No sample is due at the one tick of this run, and only the last line says that no management frame comes.
    Row {
        call: Call::Send,
        changes: HALF_RATE,
        samples: "samples2 1 0 0\nend\nx\n",
        first: "capture2 1 0 0",
        width: SHORTEST,
        lines: &["0 020000000001020000000002fc3d0207001000000000bc"],
        last: "bad 3 after",
    },
];

/// What the call prints of the samples by the plan.
fn printed(
    alloc: Global,
    call: Call,
    plan: &str,
    samples: &str,
) -> Result<(Status, Vec<u8>), NoMemory> {
    let mut shelf = MemShelf::new(alloc, AMPLE);
    shelf.add("plan", plan.as_bytes())?;
    shelf.add("samples", samples.as_bytes())?;
    let mut out = MemSink::new(alloc, AMPLE, AMPLE)?;
    let status = match call {
        Call::Send => send_samples(alloc, "plan", "samples", &mut shelf, &mut out),
        Call::Line => line_samples(alloc, "plan", "samples", &mut shelf, &mut out),
    };
    Ok((status, Vec::from_slice(alloc, out.octets())?))
}

/// The text of a row.
fn text_of(alloc: Global, row: &Row<'_>) -> Result<String, NoMemory> {
    let mut text = String::new(alloc);
    writeln!(text, "{}", row.first)?;
    for line in row.lines {
        text.push_str(*line)?;
        for _ in line.len()..row.width {
            text.push_str("0")?;
        }
        text.push_str("\n")?;
    }
    writeln!(text, "{}", row.last)?;
    Ok(text)
}

// Compares what is printed of a row.
fn try_row(rt: &impl Abort, alloc: Global, row: &Row<'_>) -> Result<(), Fail> {
    let mut plan = String::from_str(alloc, PLAN)?;
    for (old, new) in row.changes {
        plan = plan.replacen(alloc, *old, *new, 1)?;
    }
    let text = text_of(alloc, row)?;
    let (status, printed) = printed(alloc, row.call, plan.as_str(), row.samples)?;
    assert_eq!(rt; printed.as_slice(), text.as_bytes(), "{}", row.samples);
    let number = if row.last == "end" { 0 } else { 4 };
    assert_eq!(rt; code(&status), number, "{}", row.samples);
    Ok(())
}

#[test]
fn each_file_of_samples_is_what_is_sent(rt: HostRuntime) -> Result<(), Fail> {
    for row in &ROWS {
        try_row(&rt, rt.alloc(), row)?;
    }
    Ok(())
}

#[test]
fn a_header_with_a_rate_code_that_needs_wider_words_is_refused(
    rt: HostRuntime,
) -> Result<(), Fail> {
    let (status, text) = printed(rt.alloc(), Call::Send, PLAN, "samples2 1 3 0\n")?;
    assert_eq!(rt; text.as_slice(), b"bad 1 header\n".as_slice());
    assert_eq!(rt; code(&status), 4);
    Ok(())
}

/// The octets of the fast channel in the control words from frame 20 on, as they were laid out by hand: a preamble, the frame a5
/// and its end.
const FAST: [u8; 14] = [
    0x7f, 0x44, 0xad, 0xb5, 0xd6, 0x5a, 0x6b, 0xad, 0xb5, 0xd6, 0x5b, 0x37, 0xcb, 0xff,
];

/// The control word of frame `n`, which has one octet.
fn control_octet(n: u64) -> u8 {
    match n {
        0 => 0xbc,
        2 => 1,
        20..34 => FAST[(n - 20) as usize],
        _ => 0,
    }
}

#[test]
fn a_management_frame_is_spread_over_control_words(rt: HostRuntime) -> Result<(), Fail> {
    let mut samples = String::from_str(rt.alloc(), "samples2 33 0 20\nfast a5\n")?;
    let mut text = String::from_str(rt.alloc(), "capture2 33 0 20\n")?;
    for _ in 0..33 {
        samples.push_str("0 0\n")?;
    }
    samples.push_str("end\n")?;
    for n in 0..34 {
        let (p, q, octet) = (n % 4, n / 4 % 4, control_octet(n));
        writeln!(
            text,
            "{n} 020000000001020000000002fc3d02070010{q:04x}{p:04x}{octet:02x}{ZEROS}"
        )?;
    }
    text.push_str("end\n")?;
    let (status, printed) = printed(rt.alloc(), Call::Send, PLAN, samples.as_str())?;
    assert_eq!(rt; printed.as_slice(), text.as_bytes());
    assert_eq!(rt; status, Status::Done);
    Ok(())
}
