//! Five packets of one flow as octets, and each way in which octets are no packet.
use arrayvec::ArrayVec;
use roe_header::{NotRoe, Packet, parse, write};
use std::process::Abort;

/// The octets before the ordering information.
const FRONT: [u8; 18] = [
    0x02, 0, 0, 0, 0, 0x01, 0x02, 0, 0, 0, 0, 0x02, 0xFC, 0x3D, 0x02, 0x07, 0x00, 0x10,
];

/// Compares a packet of this flow with the octets `FRONT`, then `seq` and three octets, then zeros.
fn compare_packet(rt: &impl Abort, seq: [u8; 4], first: [u8; 3]) {
    let mut octets = [0; 60];
    octets[..18].copy_from_slice(&FRONT);
    octets[18..22].copy_from_slice(&seq);
    octets[22..25].copy_from_slice(&first);
    let packet = Packet {
        dst: [2, 0, 0, 0, 0, 1],
        src: [2, 0, 0, 0, 0, 2],
        sub: 2,
        flow: 7,
        seq: u32::from_be_bytes(seq),
        payload: &octets[22..38],
    };
    let mut written = ArrayVec::new();
    write(&packet, &mut written);
    assert_eq!(rt; written.as_slice(), octets.as_slice());
    assert_eq!(rt; parse(&octets), Ok(packet));
    // Without the zeros behind its payload it is the same packet.
    assert_eq!(rt; parse(&octets[..38]), Ok(packet));
}

#[test]
fn packets_of_one_flow(rt: HostRuntime) {
    compare_packet(&rt, [0, 0, 0, 0], [0xBC, 0, 0]);
    compare_packet(&rt, [0, 0, 0, 1], [0x00, 0xB3, 0xAA]);
    compare_packet(&rt, [0, 0, 0, 2], [0x01, 0, 0]);
    compare_packet(&rt, [0, 0, 0, 3], [0, 0x01, 0]);
    compare_packet(&rt, [0, 1, 0, 0], [0, 0x02, 0]);
}

#[test]
fn the_longest_payload_has_no_zeros_behind_it(rt: HostRuntime) {
    let payload = [0xA5; 1492];
    let packet = Packet {
        dst: [1, 2, 3, 4, 5, 6],
        src: [7, 8, 9, 10, 11, 12],
        sub: 4,
        flow: 255,
        seq: 0xFEDC_BA98,
        payload: &payload,
    };
    let mut written = ArrayVec::new();
    write(&packet, &mut written);
    let octets = written.as_slice();
    assert_eq!(rt; octets.len(), 1514);
    assert_eq!(rt;
        &octets[14..22],
        [4, 255, 0x05, 0xD4, 0xFE, 0xDC, 0xBA, 0x98].as_slice()
    );
    assert_eq!(rt; parse(octets), Ok(packet));
}

/// What is read where one octet of a packet of 60 octets is another, and only `length` octets came.
fn refusal(place: usize, octet: u8, length: usize) -> Result<(), NotRoe> {
    let mut octets = [0; 60];
    octets[..18].copy_from_slice(&FRONT);
    if place < 60 {
        octets[place] = octet;
    }
    parse(&octets[..length.min(60)]).map(|_| ())
}

/// A changed octet, how many octets came, and what is answered.
const READ: [(usize, u8, usize, Result<(), NotRoe>); 10] = [
    (12, 0xFC, 60, Ok(())),
    (12, 0x08, 21, Err(NotRoe::Short { length: 21 })),
    (12, 0x08, 60, Err(NotRoe::EtherType { got: 0x083D })),
    (13, 0x3C, 22, Err(NotRoe::EtherType { got: 0xFC3C })),
    (14, 0x01, 22, Err(NotRoe::SubType { got: 1 })),
    (14, 0x05, 60, Err(NotRoe::SubType { got: 5 })),
    (
        17,
        0x27,
        60,
        Err(NotRoe::Length {
            said: 39,
            there: 38,
        }),
    ),
    (17, 0x26, 60, Ok(())),
    (
        17,
        0x10,
        37,
        Err(NotRoe::Length {
            said: 16,
            there: 15,
        }),
    ),
    (17, 0x10, 38, Ok(())),
];

#[test]
fn the_first_reason_why_octets_are_no_packet(rt: HostRuntime) {
    for (place, octet, length, answer) in READ {
        assert_eq!(rt; refusal(place, octet, length), answer, "at {place}");
    }
}
