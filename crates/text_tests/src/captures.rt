// The lines of captures.
use link_run_capture::{Arrival, MOST_OCTETS, Version, read_header, read_record};
use link_run_feed::Reason;

/// The version of a header, the length of the run, the HDLC rate code and the pointer.
type Said = (Version, u64, u8, u8);

/// The octets of a word, a first line, and what it says.
const HEADERS: [(usize, &[u8], Option<Said>); 18] = [
    (1, b"capture 4", Some((Version::One, 4, 0, 0))),
    (16, b"capture 4096", Some((Version::One, 4096, 0, 0))),
    (1, b"capture 4097", None),
    (1, b"capture", None),
    (1, b"capture ", None),
    (1, b"capture 01", None),
    (1, b"capture 1 ", None),
    (1, b"startup 1", None),
    (1, b"capture2 33 0 20", Some((Version::Two, 33, 0, 20))),
    (
        16,
        b"capture2 1099511627776 6 63",
        Some((Version::Two, 1 << 40, 6, 63)),
    ),
    (1, b"capture2 1099511627777 0 0", None),
    (1, b"capture2 1 3 0", None),
    (2, b"capture2 1 3 0", Some((Version::Two, 1, 3, 0))),
    (16, b"capture2 1 7 0", None),
    (16, b"capture2 1 0 19", None),
    (16, b"capture2 1 0 64", None),
    (16, b"capture2 1 0", None),
    (16, b"capture2 1 0 0 0", None),
];

/// A line, and the record that it is.
const LINES: [(&[u8], Result<Arrival, Reason>); 8] = [
    (b"0 00ff", Ok(Arrival { tick: 0, length: 2 })),
    (
        b"1099511627776 Aa",
        Ok(Arrival {
            tick: 1 << 40,
            length: 1,
        }),
    ),
    (b"1099511627777 aa", Err(Reason::Number)),
    (b"01 aa", Err(Reason::Number)),
    (b"aa", Err(Reason::Number)),
    (b"1", Err(Reason::Hex)),
    (b"1 ", Err(Reason::Hex)),
    (b"1 aaa", Err(Reason::Hex)),
];

#[test]
fn headers_say_what_a_run_is(rt: HostRuntime) {
    for (width, line, said) in HEADERS {
        let read = read_header(width, line).map(|h| (
            h.version,
            h.run_ticks,
            h.announce.hdlc,
            h.announce.pointer,
        ));
        assert_eq!(rt; read, said, "{line:?}");
    }
}

#[test]
fn lines_are_records(rt: HostRuntime) {
    let mut octets = [0; MOST_OCTETS];
    for (line, record) in LINES {
        assert!(rt; line.len() <= 4096);
        assert_eq!(rt; read_record(line, &mut octets), record, "{line:?}");
    }
    assert_eq!(rt; octets[0], 0xaa);
}
