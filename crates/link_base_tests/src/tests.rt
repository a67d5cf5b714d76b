// Shelves and sinks in memory at their edges, and those of the system once.
use link_base::{Failed, FileShelf, MemShelf, MemSink, NoMemory, Shelf, Sink, StdSink, put_all};
use std::alloc::Global;
use std::path::Path;
use std::process::Abort;
use std::test::Fail;
use std::{env, fs, process};

const TWENTY: &[u8] = b"abcdefghijklmnopqrst";

/// Names and octets in the order in which they are added.
const NAMED: [(&str, &[u8]); 3] = [("a", b"one"), ("b", b"two"), ("a", b"three")];

// Reads on to the end or to the first failure, by a buffer of 16 octets: what came, and the failure.
fn rest<H: Shelf>(alloc: Global, shelf: &mut H) -> Result<(Vec<u8>, Result<(), Failed>), NoMemory> {
    let mut octets = Vec::new(alloc);
    let mut buf = [0; 16];
    for _ in 0..u64::MAX {
        match shelf.read(&mut buf) {
            Ok(count) if count > 0 && count <= buf.len() => octets.extend_from_slice(
                &buf[..count],
            )?,
            Ok(_) => break,
            Err(failed) => return Ok((octets, Err(failed))),
        }
    }
    Ok((octets, Ok(())))
}

// Compares what is read to the end or the first failure, after which nothing more comes.
fn assert_rest<H: Shelf>(
    rt: &impl Abort,
    alloc: Global,
    shelf: &mut H,
    octets: &[u8],
    end: Result<(), Failed>,
) -> Result<(), NoMemory> {
    for expected in [octets, &[]] {
        let (came, stopped) = rest(alloc, shelf)?;
        assert_eq!(rt; came.as_slice(), expected);
        assert_eq!(rt; stopped, end);
    }
    assert_eq!(rt; shelf.read(&mut []), Ok(0));
    Ok(())
}

fn shelf_of(alloc: Global, piece: usize, files: &[(&str, &[u8])]) -> Result<MemShelf, NoMemory> {
    let mut shelf = MemShelf::new(alloc, piece.max(1));
    for (name, octets) in files {
        shelf.add(name, octets)?;
    }
    Ok(shelf)
}

fn shelf_of_twenty(alloc: Global, piece: usize) -> Result<MemShelf, NoMemory> {
    shelf_of(alloc, piece, &[("twenty", TWENTY)])
}

fn assert_file(
    rt: &impl Abort,
    alloc: Global,
    shelf: &mut MemShelf,
    name: &str,
    octets: &[u8],
    end: Result<(), Failed>,
) -> Result<(), NoMemory> {
    assert_eq!(rt; shelf.select(name), Ok(()), "at {name}");
    assert_rest(rt, alloc, shelf, octets, end)
}

// A name that is not held, after one that is.
fn assert_no_file(rt: &impl Abort, shelf: &mut MemShelf, name: &str) {
    assert_eq!(rt; shelf.select("a"), Ok(()));
    assert_eq!(rt; shelf.select(name), Err(Failed), "at {name}");
    assert_eq!(rt; shelf.read(&mut [0; 9]), Ok(0), "at {name}");
}

#[test]
fn selects_the_names_that_are_held(rt: HostRuntime) -> Result<(), Fail> {
    let mut shelf = shelf_of(rt.alloc(), 4096, &NAMED)?;
    for (name, held) in [("a", "three"), ("b", "two")] {
        assert_file(&rt, rt.alloc(), &mut shelf, name, held.as_bytes(), Ok(()))?;
    }
    for name in ["", "c", "A", "ab"] {
        assert_no_file(&rt, &mut shelf, name);
    }
    Ok(())
}

fn assert_counts(rt: &impl Abort, shelf: &mut MemShelf, counts: &[usize]) {
    assert_eq!(rt; shelf.select("twenty"), Ok(()));
    for count in counts {
        assert_eq!(rt; shelf.read(&mut []), Ok(0));
        assert_eq!(rt; shelf.read(&mut [0; 16]), Ok(*count));
    }
}

/// The piece, and what each read of 16 octets gives.
const PIECES: [(usize, &[usize]); 4] = [
    (1, &[1, 1, 1]),
    (2, &[2, 2, 2]),
    (7, &[7, 7, 6, 0]),
    (4096, &[16, 4, 0]),
];

#[test]
fn reads_in_pieces(rt: HostRuntime) -> Result<(), Fail> {
    for (piece, counts) in PIECES {
        let mut shelf = shelf_of_twenty(rt.alloc(), piece)?;
        assert_counts(&rt, &mut shelf, counts);
        assert_file(&rt, rt.alloc(), &mut shelf, "twenty", TWENTY, Ok(()))?;
    }
    Ok(())
}

/// The offset of a stop, what comes, and how it ends.
const STOPS: [(u64, &[u8], Result<(), Failed>); 7] = [
    (0, b"", Err(Failed)),
    (1, b"a", Err(Failed)),
    (7, b"abcdefg", Err(Failed)),
    (10, b"abcdefghij", Err(Failed)),
    (20, TWENTY, Err(Failed)),
    (21, TWENTY, Ok(())),
    (u64::MAX, TWENTY, Ok(())),
];

fn assert_stop(
    rt: &impl Abort,
    alloc: Global,
    offset: u64,
    octets: &[u8],
    end: Result<(), Failed>,
) -> Result<(), NoMemory> {
    let mut shelf = shelf_of_twenty(alloc, 7)?;
    shelf.stop("twenty", offset)?;
    for _ in 0..2 {
        assert_file(rt, alloc, &mut shelf, "twenty", octets, end)?;
    }
    Ok(())
}

#[test]
fn fails_at_stops(rt: HostRuntime) -> Result<(), Fail> {
    for (offset, octets, end) in STOPS {
        assert_stop(&rt, rt.alloc(), offset, octets, end)?;
    }
    Ok(())
}

// A file, and two stops at a name that is not held yet.
fn shelf_with_stops(alloc: Global) -> Result<MemShelf, NoMemory> {
    let mut shelf = shelf_of_twenty(alloc, 4096)?;
    for offset in [3, 1] {
        shelf.stop("later", offset)?;
    }
    Ok(shelf)
}

// Nothing is selected after a file is added.
fn assert_given_up(rt: &impl Abort, shelf: &mut MemShelf) -> Result<(), NoMemory> {
    assert_eq!(rt; shelf.read(&mut [0; 9]), Ok(0));
    assert_eq!(rt; shelf.select("twenty"), Ok(()));
    shelf.add("later", b"octets")?;
    assert_eq!(rt; shelf.read(&mut [0; 9]), Ok(0));
    Ok(())
}

#[test]
fn keeps_stops_by_name(rt: HostRuntime) -> Result<(), Fail> {
    let mut shelf = shelf_with_stops(rt.alloc())?;
    assert_given_up(&rt, &mut shelf)?;
    assert_file(&rt, rt.alloc(), &mut shelf, "twenty", TWENTY, Ok(()))?;
    assert_file(&rt, rt.alloc(), &mut shelf, "later", b"o", Err(Failed))?;
    Ok(())
}

/// A piece, what is answered to its write, and what is then written.
const WRITES: [(&str, Result<usize, Failed>, &str); 6] = [
    ("", Ok(0), ""),
    ("yes\n", Ok(3), "yes"),
    ("\nno", Ok(2), "yes\nn"),
    ("", Ok(0), "yes\nn"),
    ("o", Err(Failed), "yes\nn"),
    ("o", Err(Failed), "yes\nn"),
];

fn assert_write(
    rt: &impl Abort,
    sink: &mut MemSink,
    piece: &str,
    answer: Result<usize, Failed>,
    written: &str,
) {
    assert_eq!(rt; sink.write(piece.as_bytes()), answer);
    assert_eq!(rt; sink.octets(), written.as_bytes());
}

#[test]
fn takes_up_to_the_room(rt: HostRuntime) -> Result<(), Fail> {
    let mut sink = MemSink::new(rt.alloc(), 5, 3)?;
    for (piece, answer, written) in WRITES {
        assert_write(&rt, &mut sink, piece, answer, written);
    }
    Ok(())
}

/// The room, the piece, the answer, and what is written.
const FRONTS: [(usize, usize, Result<(), Failed>, &str); 6] = [
    (0, 1, Err(Failed), ""),
    (5, 3, Err(Failed), "carri"),
    (9, 4096, Err(Failed), "carrier 0"),
    (10, 1, Ok(()), "carrier 0\n"),
    (10, 7, Ok(()), "carrier 0\n"),
    (64, 4096, Ok(()), "carrier 0\n"),
];

fn assert_front(rt: &impl Abort, mut sink: MemSink, answer: Result<(), Failed>, written: &str) {
    assert_eq!(rt; put_all(&mut sink, b"carrier 0\n"), answer);
    assert_eq!(rt; sink.octets(), written.as_bytes());
    assert_eq!(rt; put_all(&mut sink, b""), Ok(()));
}

#[test]
fn puts_a_front_of_the_piece(rt: HostRuntime) -> Result<(), Fail> {
    for (room, piece, answer, written) in FRONTS {
        let sink = MemSink::new(rt.alloc(), room, piece.max(1))?;
        assert_front(&rt, sink, answer, written);
    }
    Ok(())
}

fn assert_file_of_the_system(
    rt: &impl Abort,
    alloc: Global,
    shelf: &mut FileShelf<'_>,
    path: &str,
) -> Result<(), NoMemory> {
    assert_eq!(rt; shelf.read(&mut [0; 9]), Ok(0), "nothing is selected");
    for _ in 0..2 {
        assert_eq!(rt; shelf.select(path), Ok(()));
        assert_rest(rt, alloc, shelf, TWENTY, Ok(()))?;
    }
    assert!(rt; shelf.error().is_none());
    Ok(())
}

fn assert_no_file_of_the_system(rt: &impl Abort, shelf: &mut FileShelf<'_>, path: &str) {
    assert_eq!(rt; shelf.select(path), Err(Failed), "there is no such file");
    assert!(rt; shelf.error().is_some());
    assert_eq!(rt; shelf.read(&mut [0; 9]), Ok(0), "nothing is selected");
}

fn assert_folder(rt: &impl Abort, shelf: &mut FileShelf<'_>, path: &str) {
    assert_eq!(rt; shelf.select(path), Ok(()));
    assert_eq!(rt;
        shelf.read(&mut [0; 9]),
        Err(Failed),
        "a folder can't be read"
    );
}

// Writes a file, reads it on the shelf, and removes it.
fn assert_written_file(
    rt: &impl Abort,
    host: &HostRuntime,
    shelf: &mut FileShelf<'_>,
    path: &Path,
) -> Result<(), Fail> {
    fs::write(host, path, TWENTY)?;
    assert_file_of_the_system(rt, host.alloc(), shelf, path.as_str())?;
    fs::remove_file(host, path)?;
    assert_no_file_of_the_system(rt, shelf, path.as_str());
    Ok(())
}

#[test]
fn reads_files_of_the_system(rt: HostRuntime) -> Result<(), Fail> {
    let name = format!(in rt.alloc(); "link_base-{}", process::id(rt.process()))?;
    let folder = env::temp_dir(&rt)?;
    let path = folder.join(rt.alloc(), name.as_str())?;
    let mut shelf = FileShelf::new(&rt);
    assert_written_file(&rt, &rt, &mut shelf, &path.as_path())?;
    assert_folder(&rt, &mut shelf, folder.as_str());
    Ok(())
}

#[test]
fn writes_to_standard_output(rt: HostRuntime) -> Result<(), Fail> {
    let mut sink = StdSink::new(&rt);
    assert_eq!(rt; sink.write(b""), Ok(0));
    assert_eq!(rt; put_all(&mut sink, b"carrier 0 delay 3\n"), Ok(()));
    Ok(())
}

#[test]
fn says_what_was_wanting(rt: HostRuntime) -> Result<(), Fail> {
    assert_eq!(rt;
        format!(in rt.alloc(); "{Failed}, {NoMemory}")?.as_str(),
        "the outside failed, out of memory"
    );
    Ok(())
}
