//! Two start-ups from beginning to end, each event, and lists of announcements that are full.
use Event::{Again, Agree, Hear, Lose, Reset, Silence, Start, Tell};
use link_base::NoMemory;
use startup_machine::{Caps, Crowded, Event, Offer, State, World};
use std::alloc::Global;
use std::process::Abort;
use std::test::Fail;

/// One event, which is not refused.
fn happen(rt: &impl Abort, world: &mut World, end: usize, event: Event) {
    assert!(rt; end < 2);
    assert_eq!(rt; world.event(end, event), Ok(()));
}

/// The two ends of most tests.
fn begin(alloc: Global) -> Result<World, NoMemory> {
    let one = Caps {
        hdlc: 3,
        pointer: 20,
    };
    let two = Caps {
        hdlc: 5,
        pointer: 40,
    };
    World::begin(alloc, one, two)
}

/// Compares the state and the offer of an end.
fn compare(rt: &impl Abort, world: &World, end: usize, state: State, hdlc: u8, pointer: u8) {
    assert!(rt; end < 2);
    assert_eq!(rt; world.look(end), (state, Offer { hdlc, pointer }));
}

/// A start-up in which each end announces its offer three times.
const EVENTS: [(usize, Event); 16] = [
    (0, Start),
    (1, Start),
    (0, Tell),
    (1, Tell),
    (0, Hear),
    (1, Hear),
    (0, Tell),
    (1, Tell),
    (0, Hear),
    (1, Hear),
    (0, Tell),
    (1, Tell),
    (0, Hear),
    (1, Hear),
    (0, Agree),
    (1, Agree),
];

#[test]
fn a_start_up_with_channels(rt: HostRuntime) -> Result<(), Fail> {
    let mut world = begin(rt.alloc())?;
    let rows = [
        (State::B, 3, 20),
        (State::B, 5, 40),
        (State::B, 3, 20),
        (State::B, 5, 40),
        (State::C, 3, 20),
        (State::C, 5, 40),
        (State::C, 3, 20),
        (State::C, 5, 40),
        (State::D, 3, 40),
        (State::D, 3, 40),
        (State::D, 3, 40),
        (State::D, 3, 40),
        (State::E, 3, 40),
        (State::E, 3, 40),
        (State::F, 3, 40),
        (State::F, 3, 40),
    ];
    for ((end, event), (state, hdlc, pointer)) in EVENTS.iter().zip(&rows) {
        happen(&rt, &mut world, *end, *event);
        compare(&rt, &world, *end, *state, *hdlc, *pointer);
    }
    Ok(())
}

#[test]
fn a_start_up_without_channels(rt: HostRuntime) -> Result<(), Fail> {
    let none = Caps {
        hdlc: 0,
        pointer: 0,
    };
    let mut world = World::begin(rt.alloc(), none, none)?;
    let states = [
        State::B,
        State::B,
        State::B,
        State::B,
        State::C,
        State::C,
        State::C,
        State::C,
        State::D,
        State::D,
        State::D,
        State::D,
        State::G,
        State::G,
        State::G,
        State::G,
    ];
    for ((end, event), state) in EVENTS.iter().zip(&states) {
        happen(&rt, &mut world, *end, *event);
        compare(&rt, &world, *end, *state, 0, 0);
    }
    Ok(())
}

/// Compares the state and the offer of an end after these events.
fn compare_after(
    rt: &impl Abort,
    world: &mut World,
    events: &[(usize, Event)],
    end: usize,
    state: State,
    hdlc: u8,
    pointer: u8,
) {
    for (at, event) in events {
        happen(rt, world, *at, *event);
    }
    compare(rt, world, end, state, hdlc, pointer);
}

/// Events, and then an end with its state and its offer.
type Row = (&'static [(usize, Event)], usize, State, u8, u8);

/// Each event, at each end that it may change.
const EACH: [Row; 17] = [
    (&[(0, Start)], 0, State::B, 3, 20),
    (&[(0, Start)], 1, State::A, 5, 40),
    (&[(1, Start), (0, Tell), (1, Hear)], 1, State::B, 5, 40),
    (&[(0, Start), (0, Tell), (0, Hear)], 0, State::B, 3, 20),
    (
        &[(0, Start), (1, Start), (0, Tell), (1, Hear)],
        1,
        State::C,
        5,
        40,
    ),
    (
        &[(1, Start), (1, Tell), (0, Hear), (0, Start), (0, Hear)],
        0,
        State::B,
        3,
        20,
    ),
    (
        &[(0, Start), (0, Lose), (0, Again), (0, Hear)],
        0,
        State::B,
        3,
        20,
    ),
    (
        &[(0, Start), (1, Start), (1, Tell), (0, Lose), (0, Hear)],
        0,
        State::B,
        3,
        20,
    ),
    (
        &[
            (0, Start),
            (1, Start),
            (1, Tell),
            (0, Again),
            (0, Hear),
            (0, Hear),
        ],
        0,
        State::D,
        3,
        40,
    ),
    (
        &[
            (0, Start),
            (1, Start),
            (1, Tell),
            (1, Lose),
            (1, Again),
            (0, Hear),
        ],
        0,
        State::C,
        3,
        20,
    ),
    (
        &[
            (0, Start),
            (1, Start),
            (1, Tell),
            (0, Reset),
            (0, Start),
            (0, Hear),
        ],
        0,
        State::C,
        3,
        20,
    ),
    (&[(0, Start), (0, Agree)], 0, State::B, 3, 20),
    (&[(0, Silence)], 0, State::A, 3, 20),
    (
        &[(0, Start), (1, Start), (1, Tell), (0, Hear), (0, Silence)],
        0,
        State::B,
        3,
        20,
    ),
    (
        &[(0, Start), (1, Start), (1, Tell), (0, Hear), (0, Silence)],
        1,
        State::B,
        5,
        40,
    ),
    (
        &[(0, Start), (1, Start), (1, Tell), (0, Hear), (0, Reset)],
        0,
        State::A,
        3,
        20,
    ),
    (
        &[(0, Start), (1, Start), (1, Tell), (0, Hear), (0, Reset)],
        1,
        State::B,
        5,
        40,
    ),
];

#[test]
fn each_event(rt: HostRuntime) -> Result<(), Fail> {
    for (events, end, state, hdlc, pointer) in &EACH {
        let mut world = begin(rt.alloc())?;
        compare_after(&rt, &mut world, events, *end, *state, *hdlc, *pointer);
    }
    Ok(())
}

/// Two announcements are on their way to the first end, which then is in D with the offer of the newer one.
const TWO_COMING: [(usize, Event); 14] = [
    (0, Start),
    (1, Start),
    (1, Tell),
    (1, Tell),
    (1, Tell),
    (0, Tell),
    (0, Tell),
    (1, Hear),
    (1, Hear),
    (1, Tell),
    (0, Hear),
    (0, Hear),
    (0, Tell),
    (1, Lose),
];

#[test]
fn the_oldest_is_heard_and_the_newest_is_lost(rt: HostRuntime) -> Result<(), Fail> {
    let rows: [(&[(usize, Event)], State); 6] = [
        (&[(0, Hear)], State::D),
        (&[(0, Hear), (0, Hear)], State::E),
        (&[(0, Lose), (0, Hear), (0, Hear)], State::D),
        (&[(0, Again), (0, Hear), (0, Hear), (0, Hear)], State::E),
        (&[(0, Hear), (0, Hear), (0, Agree)], State::F),
        (
            &[(0, Hear), (0, Hear), (0, Agree), (1, Tell), (0, Hear)],
            State::F,
        ),
    ];
    for (events, state) in &rows {
        let mut world = begin(rt.alloc())?;
        compare_after(&rt, &mut world, &TWO_COMING, 0, State::D, 3, 40);
        compare_after(&rt, &mut world, events, 0, *state, 3, 40);
    }
    Ok(())
}

#[test]
fn a_full_list_of_announcements(rt: HostRuntime) -> Result<(), Fail> {
    let mut world = begin(rt.alloc())?;
    let full = Err(Crowded { held: 4096 });
    happen(&rt, &mut world, 0, Start);
    happen(&rt, &mut world, 0, Tell);
    for _ in 0..4095 {
        happen(&rt, &mut world, 1, Again);
    }
    assert_eq!(rt; world.event(1, Again), full);
    assert_eq!(rt; world.event(0, Tell), full);
    compare(&rt, &world, 0, State::B, 3, 20);
    compare(&rt, &world, 1, State::A, 5, 40);
    happen(&rt, &mut world, 1, Tell);
    happen(&rt, &mut world, 0, Again);
    happen(&rt, &mut world, 1, Lose);
    happen(&rt, &mut world, 0, Tell);
    assert_eq!(rt; world.event(0, Tell), full);
    happen(&rt, &mut world, 0, Reset);
    happen(&rt, &mut world, 0, Tell);
    Ok(())
}
