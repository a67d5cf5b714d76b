//! The channel at worked frames and lines of bits.
ghost use Rattle.std.specs.Prelude.{◌≤◌, length};

use hdlc_channel::{SlowEvent, SlowReader, SlowWriter};
use link_base::{Full, NoMemory};
use std::alloc::Global;
use std::process::Abort;
use std::test::Fail;

/// The nine octets of ASCII `123456789`, whose sequence is 906Eh.
const FRAME: [u8; 9] = *b"123456789";

/// The octets that a writer gives of this frame, from its beginning: a flag, the frame, its sequence and a flag.
const WRITTEN: [u8; 13] = [
    0x7e, 0x31, 0x32, 0x33, 0x34, 0x35, 0x36, 0x37, 0x38, 0x39, 0x6e, 0x90, 0x7e,
];

/// Compares what a new reader answers to bits, written as 0 and 1 with spaces between: nothing, but `last` to the last bit.
fn compare(
    rt: &impl Abort,
    alloc: Global,
    bits: &str,
    last: Option<SlowEvent>,
) -> Result<(), Fail> {
    let mut reader = SlowReader::begin(alloc)?;
    let mut answer = None;
    for bit in bits.as_bytes() {
        if *bit != b' ' {
            assert!(rt; answer.is_none(), "answered too early");
            answer = reader.push(*bit == b'1');
        }
    }
    assert_eq!(rt; answer, last);
    Ok(())
}

/// The next octets of a writer.
fn compare_octets(rt: &impl Abort, writer: &mut SlowWriter, octets: &[u8]) {
    for octet in octets {
        assert_eq!(rt; writer.next(), *octet);
    }
}

/// Hands over octets, and compares the answers with those that come: the place of the octet, and the bit in it.
fn compare_answers(
    rt: &impl Abort,
    reader: &mut SlowReader,
    octets: &[u8],
    answers: &[(usize, u32, SlowEvent)],
) {
    let mut next = 0;
    for (place, octet) in octets.iter().enumerate() {
        let mut from = 0;
        while from < 8 {
            let taken = reader.push_octet(*octet, from);
            from += taken.bits;
            if let Some(event) = taken.event {
                assert!(rt; next < answers.len());
                assert_eq!(rt; (place, from - 1, event), answers[next]);
                next += 1;
            }
        }
    }
    assert_eq!(rt; next, answers.len());
}

/// Compares the octets that a new writer gives of a frame.
fn compare_written(
    rt: &impl Abort,
    alloc: Global,
    frame: &[u8],
    octets: &[u8],
) -> Result<(), NoMemory>
    requires some { 1 ≤ length frame.now }
    requires few { length frame.now ≤ 1500 }
{
    let mut writer = SlowWriter::begin(alloc)?;
    assert_eq!(rt; writer.queue(frame), Ok(()));
    compare_octets(rt, &mut writer, octets);
    Ok(())
}

/// Compares what a new reader answers to octets, and the frame that it lends then.
fn compare_read(
    rt: &impl Abort,
    alloc: Global,
    octets: &[u8],
    answers: &[(usize, u32, SlowEvent)],
    frame: &[u8],
) -> Result<(), NoMemory> {
    let mut reader = SlowReader::begin(alloc)?;
    assert_eq!(rt; reader.frame(), [].as_slice());
    compare_answers(rt, &mut reader, octets, answers);
    assert_eq!(rt; reader.frame(), frame);
    reader.restart();
    assert_eq!(rt; reader.frame(), [].as_slice());
    Ok(())
}

#[test]
fn a_frame_is_written_and_read(rt: HostRuntime) -> Result<(), Fail> {
    compare_written(&rt, rt.alloc(), &FRAME, &WRITTEN)?;
    let answers = [(12, 7, SlowEvent::Frame)];
    compare_read(&rt, rt.alloc(), &WRITTEN, &answers, &FRAME)?;
    Ok(())
}

/// A frame whose content ends in five 1s: its sequence is F838h, and a 0 is put in between these 1s and the closing flag.
/// More flags follow.
#[test]
fn five_ones_before_a_flag(rt: HostRuntime) -> Result<(), Fail> {
    let written = [0x7e, 0x88, 0x38, 0xf8, 0xfc, 0xfc, 0xfc];
    compare_written(&rt, rt.alloc(), &[0x88], &written)?;
    let answers = [(5, 0, SlowEvent::Frame)];
    compare_read(&rt, rt.alloc(), &written, &answers, &[0x88])?;
    Ok(())
}

/// What comes of each content, at the last bit of the flag that closes it, and of 1s that close none.
const LINES: [(&str, Option<SlowEvent>); 12] = [
    // Two flags, and two flags that share a 0.
    ("01111110 01111110", None),
    ("01111110 1111110", None),
    // No 0 came before these 1s.
    ("1111110 1111110", None),
    ("01111110 0 01111110", Some(SlowEvent::TooShort { bits: 1 })),
    // Five 1s, with the 0 that is put in behind them, and without it.
    (
        "01111110 111110 01111110",
        Some(SlowEvent::TooShort { bits: 5 }),
    ),
    (
        "01111110 11111 01111110",
        Some(SlowEvent::TooShort { bits: 5 }),
    ),
    (
        "01111110 00000000 00000000 0000000 01111110",
        Some(SlowEvent::TooShort { bits: 23 }),
    ),
    (
        "01111110 00000000 00000000 00000000 01111110",
        Some(SlowEvent::BadFcs {
            got: 0,
            want: 0xf078,
        }),
    ),
    (
        "01111110 00000000 00000000 00000000 0 01111110",
        Some(SlowEvent::Uneven { bits: 25 }),
    ),
    // The seventh 1 ends a frame of more than six bits, and no other.
    ("01111110 0 1111111", Some(SlowEvent::Aborted)),
    ("01111110 1111111", None),
    ("01111110 0000 111111", None),
];

#[test]
fn each_content_has_its_answer(rt: HostRuntime) -> Result<(), Fail> {
    for (bits, last) in LINES {
        compare(&rt, rt.alloc(), bits, last)?;
    }
    Ok(())
}

#[test]
fn a_wrong_sequence_and_a_frame_too_long(rt: HostRuntime) -> Result<(), Fail> {
    let mut reader = SlowReader::begin(rt.alloc())?;
    let mut wrong = WRITTEN;
    wrong[11] = 0x91;
    let event = SlowEvent::BadFcs {
        got: 0x916e,
        want: 0x906e,
    };
    compare_answers(&rt, &mut reader, &wrong, &[(12, 7, event)]);
    // The flag's last bit is followed by 12,024 bits.
    compare_answers(
        &rt,
        &mut reader,
        &[0; 1503],
        &[(1502, 7, SlowEvent::TooLong)],
    );
    compare_answers(&rt, &mut reader, &WRITTEN, &[(12, 7, SlowEvent::Frame)]);
    assert_eq!(rt; reader.frame(), FRAME.as_slice());
    Ok(())
}

/// A frame as long as a frame may be.
const LONGEST: [u8; 1500] = [0; 1500];

/// Octets that a writer gives, and what is answered to the frame that is queued then.
const QUEUED: [(usize, &[u8], Result<(), Full>); 10] = [
    (0, &LONGEST, Ok(())),
    (0, &LONGEST, Ok(())),
    (0, &LONGEST, Ok(())),
    (0, &LONGEST, Ok(())),
    (0, &LONGEST, Ok(())),
    (0, &LONGEST, Err(Full { room: 682 })),
    // The first frame is begun behind the flag.
    (1, &LONGEST, Err(Full { room: 682 })),
    (1, &LONGEST, Ok(())),
    (0, &[0; 680], Ok(())),
    (0, &[0], Err(Full { room: 0 })),
];

/// Queues a frame once a writer has given so many octets.
fn queue_after(
    rt: &impl Abort,
    writer: &mut SlowWriter,
    octets: usize,
    frame: &[u8],
) -> Result<(), Full> {
    for _ in 0..octets {
        writer.next();
    }
    assert!(rt; 1 <= frame.len() && frame.len() <= 1500);
    writer.queue(frame)
}

#[test]
fn a_queue_is_full(rt: HostRuntime) -> Result<(), Fail> {
    let mut writer = SlowWriter::begin(rt.alloc())?;
    for (octets, frame, answer) in QUEUED {
        assert_eq!(rt; queue_after(&rt, &mut writer, octets, frame), answer);
    }
    Ok(())
}
