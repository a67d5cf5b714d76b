//! Captures of one flow, played, and what is answered to each kind of octets.
ghost use Rattle.std.specs.Prelude.{◌≡◌, ◌<◌, ◌≤◌, ◌^◌, length};

use carrier_plan::read;
use link_base::NoMemory;
use link_receiver::{AnySession, Arrive, Counts, Entry, Foreign};
use plan_checker::{Checked, check};
use roe_header::NotRoe;
use sample_bits::RawIq;
use std::alloc::Global;
use std::process::Abort;
use std::test::Fail;

/// The octets of a packet of flow 7 before the ordering information. It says 16 octets of payload.
const FRONT: [u8; 18] = [
    0x02, 0, 0, 0, 0, 0x01, 0x02, 0, 0, 0, 0, 0x02, 0xFC, 0x3D, 0x02, 0x07, 0x00, 0x10,
];

type Octets = [u8; 60];

// The tick at which a packet arrives, its sequence number, the first octets of its payload, and what is answered to it.
type Arrival = (u64, u32, [u8; 8], Arrive);

// The tick at which a sample leaves, its number, and I and Q, or none where it is marked.
type Sample = (u64, u64, Option<(i32, i32)>);

// A packet of the flow, by its sequence number and the first octets of its payload. The others are 0.
fn packet_of(seq: u32, first: [u8; 8]) -> Octets {
    let mut octets = [0; 60];
    octets[..18].copy_from_slice(&FRONT);
    octets[18..22].copy_from_slice(&seq.to_be_bytes());
    octets[22..30].copy_from_slice(&first);
    octets
}

// Plans on option 1 in mode `bytes`, which play each frame two ticks after it: one carrier of one piece, and flow 7, whose
// packets hold one frame, count 0 to 3 in both fields, and arrive 0 to 2 ticks after it. By the first the carrier has a sample of
// 8 bits in each frame, by the second two samples of 15 bits in five frames, by method 3.
const SAMPLE_A_FRAME: &str =
    "version = 1\noption = 1\nmode = \"bytes\"\nplayout = 2\n[[carrier]]\nmethod = 1\ns = 1\nk = 1\nm = 8\nstart = 0\nsize = 16\n[[flow]]\nid = 7\ndst = \"020000000001\"\nsrc = \"020000000002\"\ncontrol = true\ncarriers = [0]\nframes = 1\nlmin = 0\nlmax = 2\ncap = 3\np = 4\nq = 4\n";

const TWO_IN_FIVE_FRAMES: &str =
    "version = 1\noption = 1\nmode = \"bytes\"\nplayout = 2\n[[carrier]]\nmethod = 3\ns = 2\nk = 5\nm = 15\nstart = 0\nsize = 30\n[[flow]]\nid = 7\ndst = \"020000000001\"\nsrc = \"020000000002\"\ncontrol = true\ncarriers = [0]\nframes = 1\nlmin = 0\nlmax = 2\ncap = 3\np = 4\nq = 4\n";

// Two LTE carriers of 20 MHz on option 7, whose symbols are carried, four frames in a packet.
const SYMBOLS_OF_OPTION_7: &str =
    "version = 1\noption = 7\nmode = \"tunnel\"\nplayout = 33\n[[carrier]]\nmethod = 1\ns = 8\nk = 1\nm = 15\nstart = 0\nsize = 240\n[[carrier]]\nmethod = 1\ns = 8\nk = 1\nm = 15\nstart = 240\nsize = 240\n[[flow]]\nid = 7\ndst = \"020000000001\"\nsrc = \"020000000002\"\ncontrol = true\ncarriers = [0, 1]\nframes = 4\nlmin = 10\nlmax = 30\ncap = 6\np = 256\nq = 256\n";

// A plan that meets the rules.
fn checked(rt: &impl Abort, alloc: Global, text: &str) -> Checked
    ensures { 0 < length result.flows }
{
    let plan = read(alloc, text.as_bytes()).expect(rt, "a plan");
    let checked = check(plan).expect(rt, "a plan that meets the rules");
    assert!(rt; checked.plan().flows.len() > 0);
    checked
}

// What arrives at the present tick of a capture is answered as it says.
fn arrive_all(rt: &impl Abort, session: &mut AnySession, capture: &[Arrival])
    ensures plan { session.new.plan ≡ session.old.plan }
    ensures frames { session.new.frames ≡ session.old.frames }
    ensures tick { session.new.tick ≡ session.old.tick }
{
    for &(tick, seq, first, answer) in capture {
        if tick == session.now() {
            assert_eq!(rt; session.arrive(&packet_of(seq, first)), answer);
        }
    }
}

// The entries of a run, in which packets arrive at their ticks, and its counts.
fn played(
    rt: &impl Abort,
    alloc: Global,
    checked: &Checked,
    frames: u64,
    capture: &[Arrival],
) -> Result<(Vec<Entry>, Counts), NoMemory>
    requires flows { 0 < length checked.now.flows }
    requires frames { frames ≤ 2 ^ 40 }
{
    let mut session = AnySession::begin(alloc, checked, frames)?;
    let mut entries = Vec::new(alloc);
    for _ in 0..checked.ticks(frames) {
        arrive_all(rt, &mut session, capture);
        session.tick();
        entries.extend_from_slice(session.entries())?;
    }
    Ok((entries, session.counts(0)))
}

// The entries of carrier 0 are these.
fn check_entries(rt: &impl Abort, entries: &[Entry], samples: &[Sample]) {
    assert_eq!(rt; entries.len(), samples.len());
    for (entry, &(tick, number, value)) in entries.iter().zip(samples) {
        let value = value.map(|(i, q)| RawIq { i, q });
        assert_eq!(rt;
            *entry,
            Entry {
                tick,
                carrier: 0,
                number,
                value
            }
        );
    }
}

// What packets 0 to 4 have of the samples (5, -3), (0, 0), (1, 0), (0, 1).
const NO_SAMPLE: [u8; 8] = [0xBC, 0, 0, 0, 0, 0, 0, 0];

const FIRST: [u8; 8] = [0, 0xB3, 0xAA, 0, 0, 0, 0, 0];

const SECOND: [u8; 8] = [0x01, 0, 0, 0, 0, 0, 0, 0];

const THIRD: [u8; 8] = [0, 0x01, 0, 0, 0, 0, 0, 0];

const FOURTH: [u8; 8] = [0, 0x02, 0, 0, 0, 0, 0, 0];

const IN_ORDER: [Arrival; 5] = [
    (0, 0, NO_SAMPLE, Arrive::Taken { flow: 0, number: 0 }),
    (1, 1, FIRST, Arrive::Taken { flow: 0, number: 1 }),
    (2, 2, SECOND, Arrive::Taken { flow: 0, number: 2 }),
    (3, 3, THIRD, Arrive::Taken { flow: 0, number: 3 }),
    (4, 0x1_0000, FOURTH, Arrive::Taken { flow: 0, number: 4 }),
];

const ONE_LOST: [Arrival; 4] = [
    (0, 0, NO_SAMPLE, Arrive::Taken { flow: 0, number: 0 }),
    (1, 1, FIRST, Arrive::Taken { flow: 0, number: 1 }),
    (2, 2, SECOND, Arrive::Taken { flow: 0, number: 2 }),
    (4, 0x1_0000, FOURTH, Arrive::Taken { flow: 0, number: 4 }),
];

// Each packet again with the samples of another, and in the order 2, 1, 0, 4, 3.
const TWICE_AND_BACKWARDS: [Arrival; 10] = [
    (2, 2, SECOND, Arrive::Taken { flow: 0, number: 2 }),
    (2, 2, FIRST, Arrive::Repeat { flow: 0, number: 2 }),
    (2, 1, FIRST, Arrive::Taken { flow: 0, number: 1 }),
    (2, 1, THIRD, Arrive::Repeat { flow: 0, number: 1 }),
    (2, 0, NO_SAMPLE, Arrive::Taken { flow: 0, number: 0 }),
    (2, 0, FIRST, Arrive::Repeat { flow: 0, number: 0 }),
    (4, 0x1_0000, FOURTH, Arrive::Taken { flow: 0, number: 4 }),
    (4, 0x1_0000, FIRST, Arrive::Repeat { flow: 0, number: 4 }),
    (4, 3, THIRD, Arrive::Taken { flow: 0, number: 3 }),
    (4, 3, FIRST, Arrive::Repeat { flow: 0, number: 3 }),
];

// Packet 1 at the last tick at which it may arrive.
const AT_THE_LAST_TICK: [Arrival; 5] = [
    (0, 0, NO_SAMPLE, Arrive::Taken { flow: 0, number: 0 }),
    (2, 2, SECOND, Arrive::Taken { flow: 0, number: 2 }),
    (3, 1, FIRST, Arrive::Taken { flow: 0, number: 1 }),
    (3, 3, THIRD, Arrive::Taken { flow: 0, number: 3 }),
    (4, 0x1_0000, FOURTH, Arrive::Taken { flow: 0, number: 4 }),
];

const A_TICK_LATER: [Arrival; 5] = [
    (0, 0, NO_SAMPLE, Arrive::Taken { flow: 0, number: 0 }),
    (2, 2, SECOND, Arrive::Taken { flow: 0, number: 2 }),
    (3, 3, THIRD, Arrive::Taken { flow: 0, number: 3 }),
    (4, 1, FIRST, Arrive::Outside { flow: 0, seq: 1 }),
    (4, 0x1_0000, FOURTH, Arrive::Taken { flow: 0, number: 4 }),
];

const ALL: [Sample; 4] = [
    (3, 0, Some((5, -3))),
    (4, 1, Some((0, 0))),
    (5, 2, Some((1, 0))),
    (6, 3, Some((0, 1))),
];

const WITHOUT_THIRD: [Sample; 4] = [
    (3, 0, Some((5, -3))),
    (4, 1, Some((0, 0))),
    (5, 2, None),
    (6, 3, Some((0, 1))),
];

const WITHOUT_FIRST: [Sample; 4] = [
    (3, 0, None),
    (4, 1, Some((0, 0))),
    (5, 2, Some((1, 0))),
    (6, 3, Some((0, 1))),
];

// Blocks of two samples and five frames: the samples of block 0 stand in frames 7 and 9, and leave seven ticks after they are
// handed in. In 30 bits (1, -1) has each bit of Q and the lowest of I, and (16383, -16384) all bits of I but the highest, and of
// Q that alone.
const COMPATIBLE: [Arrival; 2] = [
    (
        7,
        0x1_0003,
        [0, 0xAB, 0xAA, 0xAA, 0x2A, 0, 0, 0],
        Arrive::Taken { flow: 0, number: 7 },
    ),
    (
        9,
        0x2_0001,
        [0, 0x55, 0x55, 0x55, 0x25, 0, 0, 0],
        Arrive::Taken { flow: 0, number: 9 },
    ),
];

const THE_FIRST_OF_TWO: [Arrival; 1] = [(
    7,
    0x1_0003,
    [0, 0xAB, 0xAA, 0xAA, 0x2A, 0, 0, 0],
    Arrive::Taken { flow: 0, number: 7 },
)];

const BOTH: [Sample; 2] = [(9, 0, Some((1, -1))), (11, 1, Some((16_383, -16_384)))];

const THE_FIRST: [Sample; 2] = [(9, 0, Some((1, -1))), (11, 1, None)];

// A plan, the length of the run in ticks, its capture, the samples that leave, and how many packets were received, of how many.
type Row = (
    &'static str,
    u16,
    &'static [Arrival],
    &'static [Sample],
    u64,
    u64,
);

const ROWS: [Row; 7] = [
    (SAMPLE_A_FRAME, 4, &IN_ORDER, &ALL, 5, 5),
    (SAMPLE_A_FRAME, 4, &ONE_LOST, &WITHOUT_THIRD, 4, 5),
    (SAMPLE_A_FRAME, 4, &TWICE_AND_BACKWARDS, &ALL, 5, 5),
    (SAMPLE_A_FRAME, 4, &AT_THE_LAST_TICK, &ALL, 5, 5),
    (SAMPLE_A_FRAME, 4, &A_TICK_LATER, &WITHOUT_FIRST, 4, 5),
    (TWO_IN_FIVE_FRAMES, 5, &COMPATIBLE, &BOTH, 2, 10),
    (TWO_IN_FIVE_FRAMES, 5, &THE_FIRST_OF_TWO, &THE_FIRST, 1, 10),
];

#[test]
fn samples_leave_after_their_delay_or_are_marked(rt: HostRuntime) -> Result<(), Fail> {
    let alloc = rt.alloc();
    for (plan, frames, capture, samples, taken, packets) in ROWS {
        let plan = checked(&rt, alloc, plan);
        let (entries, counts) = played(&rt, alloc, &plan, u64::from(frames), capture)?;
        check_entries(&rt, entries.as_slice(), samples);
        assert_eq!(rt; counts, Counts { taken, packets });
    }
    Ok(())
}

#[test]
fn a_run_of_the_greatest_length_is_begun(rt: HostRuntime) -> Result<(), Fail> {
    let plan = checked(&rt, rt.alloc(), SYMBOLS_OF_OPTION_7);
    let session = AnySession::begin(rt.alloc(), &plan, 1 << 40)?;
    let packets = 274_877_906_945;
    assert_eq!(rt; session.counts(0), Counts { taken: 0, packets });
    Ok(())
}

// Packet 0 with two other octets from a place on.
fn altered(place: usize, octets: [u8; 2]) -> Octets {
    let mut packet = packet_of(0, NO_SAMPLE);
    let place = place.min(58);
    packet[place..place + 2].copy_from_slice(&octets);
    packet
}

// The place of the two octets, what they are, and what is answered.
const ALTERED: [(usize, [u8; 2], Arrive); 10] = [
    (
        12,
        [0x08, 0x00],
        Arrive::Foreign(Foreign::NotRoe(NotRoe::EtherType { got: 0x0800 })),
    ),
    (
        16,
        [0x00, 0x27],
        Arrive::Foreign(Foreign::NotRoe(NotRoe::Length {
            said: 39,
            there: 38,
        })),
    ),
    (14, [0x03, 0x08], Arrive::Foreign(Foreign::Sub { got: 3 })),
    (14, [0x02, 0x08], Arrive::Foreign(Foreign::Flow { id: 8 })),
    (
        16,
        [0x00, 0x11],
        Arrive::Size {
            flow: 0,
            length: 17,
        },
    ),
    (16, [0x00, 0x00], Arrive::Size { flow: 0, length: 0 }),
    // The packets of the run are 0 and 1, and packet 1 may not come at tick 0.
    (20, [0x00, 0x01], Arrive::Outside { flow: 0, seq: 1 }),
    (20, [0x00, 0x02], Arrive::Outside { flow: 0, seq: 2 }),
    // Another address, and another octet behind the payload.
    (4, [0x00, 0x09], Arrive::Taken { flow: 0, number: 0 }),
    (58, [0x00, 0x01], Arrive::Repeat { flow: 0, number: 0 }),
];

fn assert_answer(rt: &impl Abort, session: &mut AnySession, octets: &Octets, answer: Arrive) {
    assert_eq!(rt; session.arrive(octets), answer);
}

fn assert_answers(rt: &impl Abort, session: &mut AnySession, rows: &[(usize, [u8; 2], Arrive)]) {
    for &(place, octets, answer) in rows {
        assert_answer(rt, session, &altered(place, octets), answer);
    }
}

#[test]
fn the_first_reason_why_octets_are_not_taken(rt: HostRuntime) -> Result<(), Fail> {
    let plan = checked(&rt, rt.alloc(), SAMPLE_A_FRAME);
    let mut session = AnySession::begin(rt.alloc(), &plan, 1)?;
    assert_eq!(rt; session.entries().len(), 0);
    assert_answers(&rt, &mut session, &ALTERED);
    Ok(())
}

// What is answered to the first octets of packet 1 at tick 1: octets that are fewer than a header, or than it says, are no packet.
fn answer_to(length: usize) -> Arrive {
    match length {
        0..22 => Arrive::Foreign(Foreign::NotRoe(NotRoe::Short { length })),
        22..38 => Arrive::Foreign(Foreign::NotRoe(NotRoe::Length {
            said: 16,
            there: length - 22,
        })),
        _ => Arrive::Taken { flow: 0, number: 1 },
    }
}

// The octets arrive at tick 1 of a run of one tick.
fn assert_arrival(
    rt: &impl Abort,
    alloc: Global,
    plan: &Checked,
    octets: &[u8],
) -> Result<(), NoMemory> {
    let mut session = AnySession::begin(alloc, plan, 1)?;
    assert!(rt; session.now() < plan.ticks(1));
    session.tick();
    assert_eq!(rt; session.arrive(octets), answer_to(octets.len()));
    Ok(())
}

#[test]
fn a_packet_that_is_cut_off_is_taken_while_its_payload_is_whole(
    rt: HostRuntime,
) -> Result<(), Fail> {
    let plan = checked(&rt, rt.alloc(), SAMPLE_A_FRAME);
    let packet = packet_of(1, FIRST);
    for length in 0..61 {
        assert_arrival(&rt, rt.alloc(), &plan, &packet[..length])?;
    }
    Ok(())
}
