//! Each call of an end, in the states where it does something and where it does nothing.
use Call::{Announce, Heard, Reset, Silence, Start, VendorAgreed};
use startup_machine::{Caps, End, Offer, State};
use std::process::Abort;

/// A call of an end.
#[derive(Clone, Copy, Debug)]
enum Call {
    Start,
    Announce,
    /// Hears a protocol version, an HDLC rate code and a pointer.
    Heard(u8, u8, u8),
    VendorAgreed,
    Silence,
    Reset,
}

/// Hears an announcement, whose L1 bits do nothing.
fn hear(rt: &impl Abort, end: &mut End, version: u8, hdlc: u8, pointer: u8) {
    assert!(rt; hdlc <= 6);
    assert!(rt; pointer == 0 || pointer >= 20);
    assert!(rt; pointer <= 63);
    end.heard(control_words::Announce {
        version,
        hdlc,
        pointer,
        l1: 31,
    });
}

fn make(rt: &impl Abort, end: &mut End, call: Call) {
    match call {
        Call::Start => end.start(),
        Call::Announce => {
            let _ = end.announce();
        }
        Call::Heard(version, hdlc, pointer) => hear(rt, end, version, hdlc, pointer),
        Call::VendorAgreed => end.vendor_agreed(),
        Call::Silence => end.silence(),
        Call::Reset => end.reset(),
    }
}

/// An end that is capable of HDLC rate code 3 and pointer 20.
fn new_end() -> End {
    End::new(Caps {
        hdlc: 3,
        pointer: 20,
    })
}

/// Compares the state and the offer of an end after these calls.
fn compare(rt: &impl Abort, calls: &[Call], state: State, hdlc: u8, pointer: u8) {
    let mut end = new_end();
    for call in calls {
        make(rt, &mut end, *call);
    }
    assert_eq!(rt; end.state(), state, "after {calls:?}");
    assert_eq!(rt; end.offer(), Offer { hdlc, pointer }, "after {calls:?}");
}

#[test]
fn announcements_of_an_end(rt: HostRuntime) {
    let mut end = new_end();
    assert_eq!(rt; end.announce(), None);
    end.start();
    let first = control_words::Announce {
        version: 1,
        hdlc: 3,
        pointer: 20,
        l1: 0,
    };
    assert_eq!(rt; end.announce(), Some(first));
}

/// Calls, and the state and the offer of an end after them.
type Row = (&'static [Call], State, u8, u8);

// What an end of these caps hears: the offer of the far end, the offer on which both meet, its own offer, no channel at
// all, HDLC alone, and the pointer alone.
const FAR: Call = Heard(1, 5, 40);

const MET: Call = Heard(1, 3, 40);

const SAME: Call = Heard(1, 3, 20);

const NONE: Call = Heard(1, 0, 0);

const SLOW: Call = Heard(1, 3, 0);

const FAST: Call = Heard(1, 0, 40);

/// In the states A to D.
const BEFORE: [Row; 18] = [
    (&[], State::A, 3, 20),
    (
        &[FAR, Announce, VendorAgreed, Silence, Reset],
        State::A,
        3,
        20,
    ),
    (&[Start], State::B, 3, 20),
    (&[Start, Start, VendorAgreed], State::B, 3, 20),
    (&[Start, FAR], State::C, 3, 20),
    (&[Start, Heard(2, 5, 40)], State::C, 3, 20),
    (&[Start, FAR, Start, VendorAgreed], State::C, 3, 20),
    (&[Start, FAR, Heard(2, 5, 40)], State::C, 3, 20),
    (&[Start, FAR, FAR], State::D, 3, 40),
    (&[Start, FAR, FAR, Start, VendorAgreed], State::D, 3, 40),
    (&[Start, FAR, FAR, MET], State::D, 3, 40),
    (&[Start, FAR, FAR, Announce, FAR], State::D, 3, 40),
    (
        &[Start, FAR, FAR, Announce, Heard(1, 2, 40)],
        State::D,
        2,
        40,
    ),
    (
        &[Start, FAR, FAR, Announce, Heard(1, 2, 40), Heard(1, 2, 40)],
        State::D,
        2,
        40,
    ),
    (&[Start, FAR, FAR, Heard(1, 6, 0)], State::D, 3, 0),
    (&[Start, FAR, FAR, Heard(2, 3, 40)], State::C, 3, 40),
    (&[Start, FAR, FAR, Silence], State::B, 3, 20),
    (&[Start, FAR, FAR, Reset], State::A, 3, 20),
];

#[test]
fn calls_before_the_channels_are_set_up(rt: HostRuntime) {
    for (calls, state, hdlc, pointer) in &BEFORE {
        compare(&rt, calls, *state, *hdlc, *pointer);
    }
}

/// In the states E to G, and out of them.
const SET_UP: [Row; 20] = [
    (&[Start, FAR, FAR, Announce, MET], State::E, 3, 40),
    (&[Start, FAR, FAR, Announce, FAR, MET], State::E, 3, 40),
    (&[Start, Announce, SAME, SAME, SAME], State::E, 3, 20),
    (&[Start, FAR, SLOW, Announce, SLOW], State::E, 3, 0),
    (&[Start, FAR, FAST, Announce, FAST], State::E, 0, 40),
    (
        &[Start, FAR, FAR, Announce, MET, MET, Start],
        State::E,
        3,
        40,
    ),
    (&[Start, FAR, FAR, Announce, MET, FAR], State::D, 3, 40),
    (
        &[Start, FAR, FAR, Announce, MET, Heard(1, 2, 50)],
        State::D,
        2,
        50,
    ),
    (
        &[Start, FAR, FAR, Announce, MET, Heard(2, 3, 40)],
        State::C,
        3,
        40,
    ),
    (
        &[Start, FAR, FAR, Announce, MET, Silence, SAME, SAME, SAME],
        State::D,
        3,
        20,
    ),
    (
        &[
            Start, FAR, FAR, Announce, MET, Reset, Start, SAME, SAME, SAME,
        ],
        State::D,
        3,
        20,
    ),
    (
        &[Start, FAR, FAR, Announce, MET, VendorAgreed],
        State::F,
        3,
        40,
    ),
    (
        &[
            Start,
            FAR,
            FAR,
            Announce,
            MET,
            VendorAgreed,
            MET,
            VendorAgreed,
        ],
        State::F,
        3,
        40,
    ),
    (
        &[
            Start,
            FAR,
            FAR,
            Announce,
            MET,
            VendorAgreed,
            Heard(1, 2, 50),
        ],
        State::D,
        2,
        50,
    ),
    (
        &[
            Start,
            FAR,
            FAR,
            Announce,
            MET,
            VendorAgreed,
            Heard(0, 3, 40),
        ],
        State::C,
        3,
        40,
    ),
    (
        &[Start, FAR, FAR, Announce, MET, VendorAgreed, Silence],
        State::B,
        3,
        20,
    ),
    (&[Start, FAR, NONE, Announce, NONE], State::G, 0, 0),
    (
        &[Start, FAR, NONE, Announce, NONE, NONE, VendorAgreed],
        State::G,
        0,
        0,
    ),
    (&[Start, FAR, NONE, Announce, NONE, SAME], State::D, 0, 0),
    (
        &[Start, FAR, NONE, Announce, NONE, Heard(2, 0, 0)],
        State::C,
        0,
        0,
    ),
];

#[test]
fn calls_when_the_channels_are_set_up(rt: HostRuntime) {
    for (calls, state, hdlc, pointer) in &SET_UP {
        compare(&rt, calls, *state, *hdlc, *pointer);
    }
}
