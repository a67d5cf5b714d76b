//! Runs of samples and their lines.
use link_base::MemSink;
use link_run_entries::{TickText, put_run};
use link_text::TextBuffer;
use sample_bits::RawIq;
use std::test::Fail;

/// A run: its tick, its carrier, the number of its first sample, its samples, its marks, and its lines.
type Row = (u64, u32, u64, &'static [RawIq], u32, &'static [u8]);

const ONE: [RawIq; 1] = [RawIq { i: 12, q: -345 }];

const FOUR: [RawIq; 4] = [
    RawIq { i: 0, q: 0 },
    RawIq { i: -1, q: 999 },
    RawIq { i: 1000, q: -1009 },
    RawIq {
        i: -524288,
        q: 524287,
    },
];

const WIDE: [RawIq; 2] = [
    RawIq {
        i: 999999,
        q: -1000000,
    },
    RawIq {
        i: i32::MIN,
        q: i32::MAX,
    },
];

const LONG: [RawIq; 32] = [RawIq { i: -7, q: 80 }; 32];

const ROWS: [Row; 9] = [
    (5, 0, 3, &[], 0, b""),
    (0, 0, 0, &ONE, 0, b"0 0 0 12 -345\n"),
    (
        7,
        63,
        8,
        &FOUR,
        0,
        b"7 63 8 0 0\n7 63 9 -1 999\n7 63 10 1000 -1009\n7 63 11 -524288 524287\n",
    ),
    (
        999999,
        4,
        98,
        &FOUR,
        0b0101,
        b"999999 4 98 -\n999999 4 99 -1 999\n999999 4 100 -\n999999 4 101 -524288 524287\n",
    ),
    (
        1000000,
        10,
        999998,
        &FOUR,
        0b1000,
        b"1000000 10 999998 0 0\n1000000 10 999999 -1 999\n1000000 10 1000000 1000 -1009\n1000000 10 1000001 -\n",
    ),
    (
        1099511627783,
        4294967295,
        10000000000009,
        &WIDE,
        0,
        b"1099511627783 4294967295 10000000000009 999999 -1000000\n1099511627783 4294967295 10000000000010 -2147483648 2147483647\n",
    ),
    (
        18446744073709551615,
        1,
        9223372036854775807,
        &ONE,
        0,
        b"18446744073709551615 1 9223372036854775807 12 -345\n",
    ),
    (1000000000000, 2, 1001, &ONE, 1, b"1000000000000 2 1001 -\n"),
    (
        20,
        3,
        99999999989,
        &LONG,
        0xffff_fffe,
        b"20 3 99999999989 -7 80\n20 3 99999999990 -\n20 3 99999999991 -\n20 3 99999999992 -\n20 3 99999999993 -\n20 3 99999999994 -\n20 3 99999999995 -\n20 3 99999999996 -\n20 3 99999999997 -\n20 3 99999999998 -\n20 3 99999999999 -\n20 3 100000000000 -\n20 3 100000000001 -\n20 3 100000000002 -\n20 3 100000000003 -\n20 3 100000000004 -\n20 3 100000000005 -\n20 3 100000000006 -\n20 3 100000000007 -\n20 3 100000000008 -\n20 3 100000000009 -\n20 3 100000000010 -\n20 3 100000000011 -\n20 3 100000000012 -\n20 3 100000000013 -\n20 3 100000000014 -\n20 3 100000000015 -\n20 3 100000000016 -\n20 3 100000000017 -\n20 3 100000000018 -\n20 3 100000000019 -\n20 3 100000000020 -\n",
    ),
];

#[test]
fn runs_are_printed(rt: HostRuntime) -> Result<(), Fail> {
    for (tick, carrier, number, samples, marks, lines) in ROWS {
        let mut text = TextBuffer::new();
        let mut out = MemSink::new(rt.alloc(), 4096, 4096)?;
        if samples.len() <= 32 && number < 1 << 63 {
            put_run(
                &mut text,
                &TickText::new(tick),
                carrier,
                number,
                samples,
                marks,
            );
        }
        text.flush(&mut out)?;
        assert_eq!(rt; out.octets(), lines);
    }
    Ok(())
}
