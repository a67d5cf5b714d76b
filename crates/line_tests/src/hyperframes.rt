//! The numbers of frames, locks on the line, and the loss of signal.
use hyperframe::{Acquire, FramePlace, Los, SyncState, place_of};

/// The number of a frame, and its BFN, Z and X.
const PLACES: [(u64, u16, u8, u8); 5] = [
    (0, 0, 0, 0),
    (38_399, 0, 149, 255),
    (38_400, 1, 0, 0),
    (157_286_399, 4095, 149, 255),
    (157_286_400, 0, 0, 0),
];

#[test]
fn frames_at_the_ends_of_the_numbering(rt: HostRuntime) {
    for (n, bfn, z, x) in PLACES {
        assert_eq!(rt; place_of(n), FramePlace { bfn, z, x });
    }
}

/// Frames in a row, whether they begin with a comma, and the state and X after them.
const LOCKS: [(usize, bool, SyncState, Option<u8>); 9] = [
    (1, false, SyncState::Hunting, None),
    (1, true, SyncState::Found, Some(0)),
    (255, false, SyncState::Found, Some(255)),
    (1, true, SyncState::Held, Some(0)),
    (255, false, SyncState::Held, Some(255)),
    (1, false, SyncState::Lost, None),
    // A lock ends early where the second comma is missing.
    (1, true, SyncState::Found, Some(0)),
    (255, false, SyncState::Found, Some(255)),
    (1, false, SyncState::Hunting, None),
];

/// The state after so many frames.
fn after(acquire: &mut Acquire, frames: usize, comma: bool) -> SyncState {
    let mut state = SyncState::Hunting;
    for _ in 0..frames {
        state = acquire.step(comma);
    }
    state
}

#[test]
fn a_lock_holds_after_a_hyperframe_until_a_comma_is_missing(rt: HostRuntime) {
    let mut acquire = Acquire::new();
    assert_eq!(rt; acquire.x(), None);
    for (frames, comma, state, x) in LOCKS {
        assert_eq!(rt; after(&mut acquire, frames, comma), state);
        assert_eq!(rt; acquire.x(), x);
    }
}

#[test]
fn sixteen_violations_are_a_loss_until_a_window_has_none(rt: HostRuntime) {
    let mut los = Los::new();
    assert!(rt; !los.step(true, 9));
    assert!(rt; !los.step(false, 6));
    assert!(rt; !los.step(true, 1));
    assert!(rt; los.step(false, 15));
    assert!(rt; los.step(true, 0));
    for _ in 1..255 {
        los.step(false, 0);
    }
    assert!(rt; !los.step(false, 0));
}
