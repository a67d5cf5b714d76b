//! Lines in pieces and with failures, and numbers and digits at their ends.
use arrayvec::ArrayVec;
use link_base::{MemShelf, MemSink, Shelf};
use link_text::{
    FrontPair, Line, LineReader, TextBuffer, decimal, front_pair, octets, put_hex, put_number,
    signed,
};
use std::alloc::Global;
use std::process::Abort;
use std::test::Fail;

const FILE: &[u8; 22] = b"capture 0\n\n5 00fF\nend\n";

/// The lines of the file, each with the offset at which it ends, after its line feed.
const LINES: [(usize, &[u8]); 4] = [(10, b"capture 0"), (11, b""), (18, b"5 00fF"), (22, b"end")];

fn shelf_of(rt: &impl Abort, alloc: Global, piece: usize, octets: &[u8]) -> MemShelf {
    let mut shelf = MemShelf::new(alloc, piece.max(1));
    shelf.add("feed", octets).expect(rt, "memory");
    shelf
}

fn begin(rt: &impl Abort, alloc: Global, shelf: &mut MemShelf) -> LineReader {
    shelf.select("feed").expect(rt, "a file of this name");
    LineReader::begin(alloc).expect(rt, "memory")
}

/// Compares the next line of a reader.
fn compare_line(rt: &impl Abort, reader: &mut LineReader, shelf: &mut MemShelf, line: &[u8]) {
    assert_eq!(rt; reader.next(shelf), Line::Text(line));
}

/// Compares the last answer of a reader, which comes again.
fn compare_last(rt: &impl Abort, reader: &mut LineReader, shelf: &mut MemShelf, last: Line) {
    for _ in 0..2 {
        assert_eq!(rt; reader.next(shelf), last);
    }
}

#[test]
fn lines_come_whatever_the_pieces(rt: HostRuntime) {
    for piece in [1, 2, 7, 4096] {
        let mut shelf = shelf_of(&rt, rt.alloc(), piece, FILE);
        let mut reader = begin(&rt, rt.alloc(), &mut shelf);
        for (_, line) in LINES {
            compare_line(&rt, &mut reader, &mut shelf, line);
        }
        compare_last(&rt, &mut reader, &mut shelf, Line::End);
    }
}

/// Compares the answers where the file fails from an offset on.
fn compare_stopped(rt: &impl Abort, alloc: Global, piece: usize, offset: usize) {
    let mut shelf = shelf_of(rt, alloc, piece, FILE);
    shelf.stop("feed", offset as u64).expect(rt, "memory");
    let mut reader = begin(rt, alloc, &mut shelf);
    for (end, line) in LINES {
        if end <= offset {
            compare_line(rt, &mut reader, &mut shelf, line);
        }
    }
    compare_last(rt, &mut reader, &mut shelf, Line::Failed);
}

#[test]
fn lines_before_a_stop_come_first(rt: HostRuntime) {
    for piece in [1, 2, 7, 4096] {
        for offset in 0..23 {
            compare_stopped(&rt, rt.alloc(), piece, offset);
        }
    }
}

/// How many octets come before these, the lengths of the lines that are given, and the last answer.
const LONG: [(usize, &[u8], &[usize], Line<'static>); 5] = [
    (0, b"", &[], Line::End),
    (4096, b"\ny", &[4096], Line::Unended),
    (4096, b"", &[], Line::Unended),
    (4097, b"\n", &[], Line::TooLong),
    (4097, b"", &[], Line::TooLong),
];

/// So many octets, and then these.
fn padded(rt: &impl Abort, alloc: Global, count: usize, rest: &[u8]) -> Vec<u8> {
    let mut octets = Vec::new(alloc);
    for _ in 0..count {
        octets.push(b'x').expect(rt, "memory");
    }
    octets.extend_from_slice(rest).expect(rt, "memory");
    octets
}

/// Compares the lengths of the lines that the file gives, and the last answer.
fn compare_lengths(
    rt: &impl Abort,
    alloc: Global,
    shelf: &mut MemShelf,
    lengths: &[usize],
    last: Line,
) {
    let mut reader = begin(rt, alloc, shelf);
    for length in lengths {
        match reader.next(shelf) {
            Line::Text(line) => assert_eq!(rt; line.len(), *length),
            other => assert_eq!(rt; other, last),
        }
    }
    compare_last(rt, &mut reader, shelf, last);
}

#[test]
fn long_lines_and_unended_ones(rt: HostRuntime) {
    for piece in [1, 7, 4096, 8192] {
        for (count, rest, lengths, last) in LONG {
            let octets = padded(&rt, rt.alloc(), count, rest);
            let mut shelf = shelf_of(&rt, rt.alloc(), piece, &octets);
            compare_lengths(&rt, rt.alloc(), &mut shelf, lengths, last);
        }
    }
}

#[test]
fn a_line_of_two_numbers_is_taken_from_the_octets_at_hand(rt: HostRuntime) {
    let mut shelf = shelf_of(&rt, rt.alloc(), 4096, b"samples 1\n-12 345\n0 7\nend\n");
    let mut reader = begin(&rt, rt.alloc(), &mut shelf);
    compare_line(&rt, &mut reader, &mut shelf, b"samples 1");
    let octets = reader.at_hand();
    assert!(rt; octets.len() >= 16);
    let pair = FrontPair {
        first: -12,
        second: 345,
        length: 7,
    };
    assert_eq!(rt; front_pair(octets), Some(pair));
    reader.pass(8);
    compare_line(&rt, &mut reader, &mut shelf, b"0 7");
}

/// A text, the most that it may give, and what it gives.
const DECIMALS: [(&[u8], u64, Option<u64>); 14] = [
    (b"0", 0, Some(0)),
    (b"7", 7, Some(7)),
    (b"8", 7, None),
    (b"4096", 4096, Some(4096)),
    (b"4097", 4096, None),
    (
        b"18446744073709551615",
        u64::MAX,
        Some(18_446_744_073_709_551_615),
    ),
    (b"18446744073709551616", u64::MAX, None),
    (b"99999999999999999999999", u64::MAX, None),
    (b"007", 100, None),
    (b"00", 100, None),
    (b"", 100, None),
    (b"-1", 100, None),
    (b"1a", 100, None),
    (b" 1", 100, None),
];

#[test]
fn decimals_are_canonical(rt: HostRuntime) {
    for (text, max, want) in DECIMALS {
        assert_eq!(rt; decimal(text, max), want, "at {text:?}");
    }
}

/// A text and what it gives.
const SIGNED: [(&[u8], Option<i32>); 12] = [
    (b"0", Some(0)),
    (b"-0", None),
    (b"-1", Some(-1)),
    (b"2147483647", Some(2_147_483_647)),
    (b"2147483648", None),
    (b"-2147483648", Some(-2_147_483_648)),
    (b"-2147483649", None),
    (b"-", None),
    (b"", None),
    (b"--1", None),
    (b"-01", None),
    (b"+1", None),
];

#[test]
fn signed_numbers_end_with_their_type(rt: HostRuntime) {
    for (text, want) in SIGNED {
        assert_eq!(rt; signed(text), want, "at {text:?}");
    }
}

/// A text, the number of octets that it gives, and octets at the front of the output, or at its end where there are none.
const DIGITS: [(&[u8], Option<usize>, &[u8]); 7] = [
    (b"00fF", Some(2), &[0, 255, 9]),
    (b"aBcDeF", Some(3), &[0xab, 0xcd, 0xef]),
    (b"", None, &[9, 9, 9]),
    (b"0", None, &[9, 9, 9]),
    (b"123", None, &[9, 9]),
    (b"0g", None, &[9, 9]),
    (b"00:0", None, &[9]),
];

#[test]
fn digits_of_either_case_are_read(rt: HostRuntime) {
    for (text, want, left) in DIGITS {
        let mut out = [9, 9, 9];
        assert_eq!(rt; octets(text, &mut out), want, "at {text:?}");
        if want.is_some() {
            assert_eq!(rt; &out[..], left, "at {text:?}");
        } else {
            assert_eq!(rt; &out[3 - left.len()..], left, "at {text:?}");
        }
    }
}

/// The octets 0, 1, 2 and so on, up to 100 of them, as digits.
fn counted() -> [u8; 200] {
    let mut text = [0; 200];
    for k in 0..100 {
        text[2 * k] = b"0123456"[k / 16];
        text[2 * k + 1] = b"0123456789aBcDeF"[k % 16];
    }
    text
}

/// What a text of at most 202 digits gives, in octets that were 255.
fn read(text: &[u8]) -> (Option<usize>, [u8; 101]) {
    let mut out = [255; 101];
    if text.len() > 202 {
        return (None, out);
    }
    let count = octets(text, &mut out);
    (count, out)
}

/// The first octets are those of their places, and the rest stay.
fn compare_counted(rt: &impl Abort, text: &[u8], count: usize) {
    let (given, out) = read(text);
    assert_eq!(rt; given, Some(count));
    for (k, octet) in out.iter().enumerate() {
        let want = if k < count { k as u8 } else { 255 };
        assert_eq!(rt; *octet, want, "octet {k} of {count}");
    }
}

fn put_at(text: &mut [u8], place: usize, octet: u8) {
    if place < text.len() {
        text[place] = octet;
    }
}

/// No octets are given where a stranger stands in the place of a digit.
fn compare_strangers(rt: &impl Abort, text: &mut [u8], place: usize) {
    for stranger in *b"/:@G`g\x00\xb0" {
        put_at(text, place, stranger);
        assert_eq!(rt; read(text).0, None, "{stranger} at {place}");
    }
    put_at(text, place, b'0');
}

#[test]
fn long_texts_are_read_whole(rt: HostRuntime) {
    let mut digits = counted();
    for count in [31, 32, 33, 63, 64, 65, 100] {
        compare_counted(&rt, &digits[..2 * count], count);
        assert_eq!(rt; read(&digits[..2 * count - 1]).0, None);
    }
    for count in [31, 32, 33, 63, 64, 65, 100] {
        for place in [0, count, 2 * count - 1] {
            compare_strangers(&rt, &mut digits[..2 * count], place);
        }
    }
}

#[test]
fn numbers_and_digits_are_written(rt: HostRuntime) {
    let mut out = ArrayVec::new();
    put_number(&mut out, i64::MIN);
    put_hex(&mut out, &[0x00, 0x9a, 0xfe]);
    assert_eq!(rt; out.as_slice(), b"-9223372036854775808009afe".as_slice());
}

#[test]
fn text_is_gathered_and_written(rt: HostRuntime) -> Result<(), Fail> {
    let mut text = TextBuffer::new();
    let mut out = MemSink::new(rt.alloc(), 64, 7)?;
    text.put_number(99);
    text.put_octet(b' ');
    text.put_number(100);
    text.put(b" ");
    text.put_signed(-1);
    text.flush(&mut out)?;
    assert_eq!(rt; out.octets(), b"99 100 -1".as_slice());
    Ok(())
}
