// Whole calls over files and a sink in memory: what holds of every form stands here once, and a form joins by a row.
ghost use Rattle.std.specs.Prelude.{◌<◌};

use crate::run;
use link_base::{MemShelf, MemSink, NoMemory};
use link_run_feed::{Status, code};
use std::alloc::Global;
use std::process::Abort;
use std::test::Fail;

mod sent;

/// Room for every text.
const AMPLE: usize = 4096;

/// A file, and how many octets of the text stand once so many of its lines are read, from none on. The last count stands for
/// all further lines.
#[derive(Clone, Copy)]
struct File {
    name: &'static str,
    content: &'static str,
    settled: &'static [usize],
}

/// A call that answers `Done`: its words, its files and its text.
#[derive(Clone, Copy)]
struct Call<'a> {
    words: &'a [&'a str],
    files: &'a [File],
    text: &'a str,
}

/// What a call left: its status and the text that was written.
#[derive(Debug, Drop)]
struct Outcome {
    status: Status,
    text: Vec<u8>,
}

/// A plan of one carrier of one sample in each frame, and of a flow of one frame in a packet.
const PLAN: File = File {
    name: "plan",
    content: "version = 1\noption = 1\nmode = \"bytes\"\nplayout = 2\n[[carrier]]\nmethod = 1\ns = 1\nk = 1\nm = 8\nstart = 0\nsize = 16\n[[flow]]\nid = 7\ndst = \"020000000001\"\nsrc = \"020000000002\"\ncontrol = true\ncarriers = [0]\nframes = 1\nlmin = 0\nlmax = 2\ncap = 3\np = 4\nq = 4\n",
    settled: &[0],
};

const EVENTS: File = File {
    name: "events",
    content: "startup 3 20 5 40\nstart 1\nstart 2\ntell 1\nhear 2\nreset 1\nend\n",
    settled: &[0, 0, 9, 18, 27, 36, 45],
};

/// The packets of four samples, (5, -3), (0, 0), (1, 0) and (0, 1).
const CAPTURE_TEXT: &str =
    "capture 4\n0 020000000001020000000002fc3d0207001000000000bc00000000000000000000000000000000000000000000000000000000000000000000000000\n1 020000000001020000000002fc3d020700100000000100b3aa0000000000000000000000000000000000000000000000000000000000000000000000\n2 020000000001020000000002fc3d02070010000000020100000000000000000000000000000000000000000000000000000000000000000000000000\n3 020000000001020000000002fc3d02070010000000030001000000000000000000000000000000000000000000000000000000000000000000000000\n4 020000000001020000000002fc3d02070010000100000002000000000000000000000000000000000000000000000000000000000000000000000000\nend\n";

/// A capture of four ticks, of which the first sample is settled by the record of tick 4.
const CAPTURE: File = File {
    name: "capture",
    content: CAPTURE_TEXT,
    settled: &[0, 0, 0, 0, 0, 0, 11],
};

/// A frame with a comma, and a frame of zeros, whose symbols are all violations of the line code.
const LINE: File = File {
    name: "line",
    content: "line 1 2\n7c196db4d1461b6db4d1461b6db4d1461b6db4d1\n0000000000000000000000000000000000000000\nend\n",
    settled: &[0, 0, 13, 22],
};

/// The samples of that capture. A sample settles the packet of its tick.
const SAMPLES: File = File {
    name: "samples",
    content: "samples 4\n5 -3\n0 0\n1 0\n0 1\nend\n",
    settled: &[0, 10, 133, 256, 379, 502, 502],
};

/// No samples, of which one frame is sent after the last line.
const NO_SAMPLES: File = File {
    name: "samples",
    content: "samples 0\nend\n",
    settled: &[0, 9, 9],
};

/// A row for each form.
const CALLS: [Call<'static>; 7] = [
    Call {
        words: &["check", "plan"],
        files: &[PLAN],
        text: "yes\ncarrier 0 delay 3\nflow 0 holds 3\n",
    },
    Call {
        words: &["startup", "events"],
        files: &[EVENTS],
        text: "1 B 3 20\n2 B 5 40\n1 B 3 20\n2 C 5 40\n1 A 3 20\nend\n",
    },
    Call {
        words: &["inspect", "line"],
        files: &[LINE],
        text: "0 sync found\n1 los on\nend 2 16\n",
    },
    Call {
        words: &["replay", "plan", "capture"],
        files: &[PLAN, CAPTURE],
        text: "3 0 0 5 -3\n4 0 1 0 0\n5 0 2 1 0\n6 0 3 0 1\nflow 0 taken 5 missed 0\nend\n",
    },
    Call {
        words: &["send", "plan", "samples"],
        files: &[PLAN, SAMPLES],
        text: CAPTURE_TEXT,
    },
    Call {
        words: &["line", "plan", "samples"],
        files: &[PLAN, NO_SAMPLES],
        text: "line 1 1\n7c196db4d1461b6db4d1461b6db4d1461b6db4d1\nend\n",
    },
    Call {
        words: &["drill", "0"],
        files: &[],
        text: "drill 0 option 1 samples 1024 equal 960 marked 64 lost 4 repeated 2\n",
    },
];

fn owned(alloc: Global, words: &[&str]) -> Result<Vec<String>, NoMemory> {
    let mut owned = Vec::new(alloc);
    for word in words {
        owned.push(String::from_str(alloc, *word)?)?;
    }
    Ok(owned)
}

// A shelf with these files, which are read in pieces of so many octets.
fn shelf_of(alloc: Global, files: &[File], piece: usize) -> Result<MemShelf, NoMemory>
    requires { 0 < piece }
{
    let mut shelf = MemShelf::new(alloc, piece);
    for file in files {
        shelf.add(file.name, file.content.as_bytes())?;
    }
    Ok(shelf)
}

/// What a call of these words leaves in so much room, which is written in pieces of so many octets.
fn answer(
    alloc: Global,
    words: &[&str],
    shelf: &mut MemShelf,
    room: usize,
    piece: usize,
) -> Result<Outcome, NoMemory>
    requires { 0 < piece }
{
    let words = owned(alloc, words)?;
    let mut out = MemSink::new(alloc, room, piece)?;
    let status = run(alloc, words.as_slice(), shelf, &mut out);
    let text = Vec::from_slice(alloc, out.octets())?;
    Ok(Outcome { status, text })
}

/// Runs a call with pieces of so many octets, so much room, and one file that fails from an offset on.
fn run_on(
    alloc: Global,
    call: &Call<'_>,
    piece: usize,
    room: usize,
    stop: Option<(&str, u64)>,
) -> Result<Outcome, NoMemory>
    requires { 0 < piece }
{
    let mut shelf = shelf_of(alloc, call.files, piece)?;
    if let Some((name, offset)) = stop {
        shelf.stop(name, offset)?;
    }
    answer(alloc, call.words, &mut shelf, room, piece)
}

/// How many lines end in the first octets of a file.
fn whole_lines(file: &File, octets: usize) -> usize {
    let before = file.content.as_bytes().iter().take(octets);
    before.filter(|c| **c == b'\n').count()
}

/// How much of the text stands once the first octets of a file were read.
fn settled(file: &File, octets: usize) -> usize {
    let lines = whole_lines(file, octets);
    let counts = file.settled.iter().take(lines.saturating_add(1));
    counts.last().copied().unwrap_or(0)
}

#[test]
fn the_pieces_do_not_matter(rt: HostRuntime) -> Result<(), Fail> {
    for call in &CALLS {
        for piece in [1, 2, 7, AMPLE] {
            assert!(rt; piece > 0);
            let outcome = run_on(rt.alloc(), call, piece, call.text.len(), None)?;
            assert_eq!(rt; outcome.text.as_slice(), call.text.as_bytes());
            assert_eq!(rt; outcome.status, Status::Done, "pieces of {piece}");
        }
    }
    Ok(())
}

#[test]
fn a_write_fault_leaves_the_first_octets_of_the_text(rt: HostRuntime) -> Result<(), Fail> {
    for call in &CALLS {
        let text = call.text.as_bytes();
        for room in 0..text.len() {
            let outcome = run_on(rt.alloc(), call, AMPLE, room, None)?;
            assert_eq!(rt; outcome.text.as_slice(), &text[..room], "room {room}");
            assert_eq!(rt; outcome.status, Status::WriteFault, "room {room}");
        }
    }
    Ok(())
}

// Stops a file of a call at each of its offsets.
fn stop_everywhere(
    rt: &impl Abort,
    alloc: Global,
    call: &Call<'_>,
    file: &File,
) -> Result<(), Fail> {
    for offset in 0..file.content.len() + 1 {
        let stop = Some((file.name, offset as u64));
        let outcome = run_on(alloc, call, 7, AMPLE, stop)?;
        let stands = settled(file, offset);
        assert!(rt; stands <= call.text.len());
        assert_eq!(rt;
            outcome.text.as_slice(),
            &call.text.as_bytes()[..stands],
            "a stop at {offset}"
        );
        assert_eq!(rt; outcome.status, Status::ReadFault, "a stop at {offset}");
    }
    Ok(())
}

#[test]
fn a_read_fault_leaves_what_is_settled(rt: HostRuntime) -> Result<(), Fail> {
    for call in &CALLS {
        for file in call.files {
            stop_everywhere(&rt, rt.alloc(), call, file)?;
        }
        if call.files.is_empty() {
            continue;
        }
        let absent = Call {
            words: call.words,
            files: &[],
            text: "",
        };
        let outcome = run_on(rt.alloc(), &absent, AMPLE, AMPLE, None)?;
        assert_eq!(rt; outcome.status, Status::ReadFault);
        assert_eq!(rt; outcome.text.len(), 0);
    }
    Ok(())
}

// Cuts the file of a call that is read line by line to its first octets, for each number of them.
fn cut_everywhere(
    rt: &impl Abort,
    alloc: Global,
    call: &Call<'_>,
    feed: &File,
) -> Result<(), Fail> {
    for octets in 0..feed.content.len() {
        let mut shelf = shelf_of(alloc, call.files, AMPLE)?;
        shelf.add(feed.name, &feed.content.as_bytes()[..octets])?;
        let outcome = answer(alloc, call.words, &mut shelf, AMPLE, AMPLE)?;
        let stands = settled(feed, octets);
        assert!(rt; stands <= call.text.len());
        let line = whole_lines(feed, octets).saturating_add(1);
        let mut text = Vec::from_slice(alloc, &call.text.as_bytes()[..stands])?;
        text.extend_from_slice(format!(in alloc; "bad {line} unended\n")?.as_bytes())?;
        assert_eq!(rt; outcome.text, text, "cut to {octets}");
        assert_eq!(rt; code(&outcome.status), 4, "cut to {octets}");
    }
    Ok(())
}

#[test]
fn a_file_that_is_cut_off_leaves_what_is_settled_and_names_the_line(
    rt: HostRuntime,
) -> Result<(), Fail> {
    for call in &CALLS {
        for file in call.files {
            if file.name != PLAN.name {
                cut_everywhere(&rt, rt.alloc(), call, file)?;
            }
        }
    }
    Ok(())
}

#[test]
fn words_of_no_form_touch_nothing(rt: HostRuntime) -> Result<(), Fail> {
    let rows: [&[&str]; 10] = [
        &[],
        &["chek", "a"],
        &["startup"],
        &["startup", "a", "b"],
        &["check", "a", "b"],
        &["replay", "a"],
        &["send", "a"],
        &["drill", "007"],
        &["drill", "2147483648"],
        &["drill", "-1"],
    ];
    for words in rows {
        let call = Call {
            words,
            files: &[],
            text: "",
        };
        let outcome = run_on(rt.alloc(), &call, AMPLE, AMPLE, None)?;
        assert_eq!(rt; outcome.status, Status::Usage);
        assert_eq!(rt; outcome.text.len(), 0);
    }
    Ok(())
}
