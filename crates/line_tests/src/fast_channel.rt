//! What comes of known bits.
ghost use Rattle.std.specs.Prelude.{◌≤◌, length};

use ethernet_channel::{FastEvent, FastReader, FastWriter};
use link_base::{Full, NoMemory};
use std::alloc::Global;
use std::process::Abort;
use std::test::Fail;

/// The bits of a text of the digits 0 and 1, which other characters part.
fn push_all(reader: &mut FastReader, text: &[u8]) -> Option<FastEvent> {
    let mut last = None;
    for digit in text {
        if *digit == b'0' || *digit == b'1' {
            last = reader.push(*digit == b'1');
        }
    }
    last
}

#[test]
fn a_frame_of_one_octet_is_read(rt: HostRuntime) -> Result<(), Fail> {
    let mut reader = FastReader::begin(rt.alloc())?;
    assert_eq!(rt; push_all(&mut reader, b"11000 10001"), None);
    for _ in 0..13 {
        assert_eq!(rt; push_all(&mut reader, b"01011"), None);
    }
    assert_eq!(rt; push_all(&mut reader, b"11011 01011 10110 01101"), None);
    assert_eq!(rt; push_all(&mut reader, b"00111"), Some(FastEvent::Frame));
    assert_eq!(rt; reader.frame(), [0xa5].as_slice());
    reader.restart();
    assert_eq!(rt; reader.frame(), [].as_slice());
    Ok(())
}

#[test]
fn each_rule_gives_its_event(rt: HostRuntime) -> Result<(), Fail> {
    let mut reader = FastReader::begin(rt.alloc())?;
    let rules: [(&[u8], FastEvent); 7] = [
        (b"01010", FastEvent::BadPreamble),
        (
            b"01011 01011 01011 01011 01011 01011 01011 01011 01011 01011 01011 01011 01011 01011",
            FastEvent::BadPreamble,
        ),
        (b"11011 00100", FastEvent::BadGroup { code: 4 }),
        (b"11011 11000", FastEvent::BadGroup { code: 24 }),
        (b"11011 01101 11111", FastEvent::NoEnd { code: 31 }),
        (b"01011 11011 01011 01101 00111", FastEvent::Odd),
        (b"11011 01101 00111", FastEvent::Empty),
    ];
    for (text, event) in rules {
        assert_eq!(rt; push_all(&mut reader, b"1 11000 10001"), None);
        assert_eq!(rt; push_all(&mut reader, text), Some(event));
    }
    Ok(())
}

/// The first octets that a writer gives of a frame.
fn written(rt: &impl Abort, alloc: Global, frame: &[u8]) -> Result<[u8; 32], NoMemory>
    requires some { 1 ≤ length frame.now }
    requires few { length frame.now ≤ 1522 }
{
    let mut writer = FastWriter::begin(alloc)?;
    assert_eq!(rt; writer.queue(frame), Ok(()));
    let mut octets = [0; 32];
    for i in 0..32 {
        octets[i] = writer.next();
    }
    Ok(octets)
}

#[test]
fn a_frame_of_one_octet_is_written(rt: HostRuntime) -> Result<(), Fail> {
    // 11111 11000 10001, thirteen 01011, 11011 01011 10110 01101 00111, and then 1s: the first bit of each eight lowest.
    let mut octets = [0xff; 32];
    octets[..13].copy_from_slice(&[
        0x7f, 0x44, 0xad, 0xb5, 0xd6, 0x5a, 0x6b, 0xad, 0xb5, 0xd6, 0x5b, 0x37, 0xcb,
    ]);
    assert_eq!(rt; written(&rt, rt.alloc(), &[0xa5])?, octets);
    Ok(())
}

/// The last event of these octets.
fn last_event(reader: &mut FastReader, octets: &[u8]) -> Option<FastEvent> {
    let mut last = None;
    for octet in octets {
        last = reader.push_octet(*octet).or(last);
    }
    last
}

#[test]
fn a_written_frame_is_read_by_octets(rt: HostRuntime) -> Result<(), Fail> {
    let octets = written(&rt, rt.alloc(), &[1, 2, 3])?;
    let mut reader = FastReader::begin(rt.alloc())?;
    assert_eq!(rt; last_event(&mut reader, &octets), Some(FastEvent::Frame));
    assert_eq!(rt; reader.frame(), [1, 2, 3].as_slice());
    Ok(())
}

#[test]
fn a_queue_holds_five_frames_of_1500_octets(rt: HostRuntime) -> Result<(), Fail> {
    let mut writer = FastWriter::begin(rt.alloc())?;
    let frame = [0; 1500];
    for _ in 0..5 {
        assert_eq!(rt; writer.queue(&frame), Ok(()));
    }
    assert_eq!(rt; writer.queue(&frame), Err(Full { room: 682 }));
    Ok(())
}
