//! The calls of a playout buffer.
ghost use Rattle.std.specs.Prelude.{◌≡◌, ◌≤◌, ◌^◌};
ghost use Rattle.playout_buffer.specs.Conditions.{IsWindow, payload_octets};

use link_base::NoMemory;
use playout_buffer::{Playout, Put, Window};
use std::alloc::Global;
use std::process::Abort;
use std::test::Fail;

// One frame of 16 octets in a packet, which is played two ticks later.
const ONE_FRAME: Window = Window {
    frames: 1,
    lmin: 0,
    lmax: 2,
    playout: 2,
    cap: 3,
    p: 4,
    q: 4,
    octets: 16,
    packets: 5,
};

// Four frames of 64 octets in a packet, in a run of one packet.
const FOUR_FRAMES: Window = Window {
    frames: 4,
    lmin: 10,
    lmax: 30,
    playout: 33,
    cap: 6,
    p: 256,
    q: 256,
    octets: 64,
    packets: 1,
};

fn advance_to(playout: &mut Playout, tick: u64)
    requires { tick ≤ 2 ^ 41 }
    ensures window { playout.new.window ≡ playout.old.window }
    ensures tick { playout.old.tick ≤ tick → playout.new.tick ≡ tick }
{
    for _now in playout.tick()..tick {
        playout.advance();
    }
}

// Payloads that arrive at a tick under a sequence number, and what is said of each.
fn check_answers(
    rt: &impl Abort,
    alloc: Global,
    window: Window,
    arrivals: &[(u8, u32, Put)],
) -> Result<(), NoMemory>
    requires window { IsWindow window }
    requires octets { payload_octets window ≡ 16 }
{
    let mut playout = Playout::begin(alloc, window)?;
    for &(tick, seq, answer) in arrivals {
        advance_to(&mut playout, u64::from(tick));
        assert_eq!(rt; playout.put(seq, &[0; 16]), answer);
    }
    Ok(())
}

#[test]
fn payloads_are_taken_once_and_in_their_windows(rt: HostRuntime) -> Result<(), Fail> {
    let in_any_order = [
        (2, 2, Put::Taken(2)),
        (2, 2, Put::Repeat(2)),
        (2, 1, Put::Taken(1)),
        (2, 1, Put::Repeat(1)),
        (2, 0, Put::Taken(0)),
        (2, 0, Put::Repeat(0)),
        (4, 0x1_0000, Put::Taken(4)),
        (4, 0x1_0000, Put::Repeat(4)),
        (4, 3, Put::Taken(3)),
    ];
    check_answers(&rt, rt.alloc(), ONE_FRAME, &in_any_order)?;
    let at_the_last_tick = [
        (0, 0, Put::Taken(0)),
        (2, 2, Put::Taken(2)),
        (3, 1, Put::Taken(1)),
        (3, 3, Put::Taken(3)),
    ];
    check_answers(&rt, rt.alloc(), ONE_FRAME, &at_the_last_tick)?;
    let too_late = [
        (0, 0, Put::Taken(0)),
        (3, 3, Put::Taken(3)),
        (4, 1, Put::Outside),
        (4, 0x1_0000, Put::Taken(4)),
    ];
    check_answers(&rt, rt.alloc(), ONE_FRAME, &too_late)?;
    let with_numbers_of_no_packet = [
        (0, 4, Put::Outside),
        (0, 0x4_0000, Put::Outside),
        (0, 0xffff_ffff, Put::Outside),
        (6, 0x1_0001, Put::Outside),
    ];
    check_answers(&rt, rt.alloc(), ONE_FRAME, &with_numbers_of_no_packet)?;
    Ok(())
}

#[test]
fn a_stale_payload_is_taken_for_the_next_packet_with_its_number(
    rt: HostRuntime,
) -> Result<(), Fail> {
    let window = Window {
        p: 3,
        q: 1,
        ..ONE_FRAME
    };
    let arrivals = [
        (0, 0, Put::Taken(0)),
        (2, 2, Put::Taken(2)),
        (3, 0, Put::Taken(3)),
        (4, 1, Put::Taken(4)),
        (4, 1, Put::Repeat(4)),
    ];
    check_answers(&rt, rt.alloc(), window, &arrivals)?;
    Ok(())
}

#[test]
fn the_first_payload_is_played(rt: HostRuntime) -> Result<(), Fail> {
    let mut playout = Playout::begin(rt.alloc(), ONE_FRAME)?;
    assert_eq!(rt; playout.put(0, &[1; 16]), Put::Taken(0));
    assert_eq!(rt; playout.put(0, &[2; 16]), Put::Repeat(0));
    playout.advance();
    playout.advance();
    assert_eq!(rt; playout.frame(0), Some([1; 16].as_slice()));
    playout.advance();
    assert_eq!(rt; playout.frame(1), None);
    Ok(())
}

#[test]
fn a_packet_of_four_frames_is_played_frame_by_frame(rt: HostRuntime) -> Result<(), Fail> {
    let mut payload = [0; 256];
    payload[128] = 1;
    let mut playout = Playout::begin(rt.alloc(), FOUR_FRAMES)?;
    advance_to(&mut playout, 33);
    assert_eq!(rt; playout.put(0, &payload), Put::Taken(0));
    assert_eq!(rt; playout.frame(0), Some([0; 64].as_slice()));
    playout.advance();
    playout.advance();
    assert_eq!(rt; playout.frame(2), Some(&payload[128..192]));

    let mut late = Playout::begin(rt.alloc(), FOUR_FRAMES)?;
    advance_to(&mut late, 34);
    assert_eq!(rt; late.put(0, &payload), Put::Outside);
    assert_eq!(rt; late.frame(1), None);
    Ok(())
}

#[test]
fn the_longest_runs_take_no_more_memory(rt: HostRuntime) -> Result<(), Fail> {
    let symbols = Window {
        octets: 320,
        packets: 274_877_906_945,
        ..FOUR_FRAMES
    };
    let playout = Playout::begin(rt.alloc(), symbols)?;
    assert_eq!(rt; playout.tick(), 0);
    let frames = Window {
        playout: 5,
        cap: 6,
        packets: (1 << 40) + 1,
        ..ONE_FRAME
    };
    let mut playout = Playout::begin(rt.alloc(), frames)?;
    assert_eq!(rt; playout.put(0, &[0; 16]), Put::Taken(0));
    Ok(())
}
