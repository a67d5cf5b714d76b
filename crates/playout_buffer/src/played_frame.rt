// The frame that is played at a tick, among the packets of a flow.
ghost use Rattle.std.specs.Prelude.{◌≡◌, ℕ, ◌+◌, ◌-◌, ◌%◌, ◌^◌, ◌<◌, ◌≤◌};
ghost use Rattle.playout_buffer.specs.PlayedFrame.{IsPlayedFrame};

use crate::Window;

/// The frame that is played at a tick. It is counted on at each tick, so that no number is divided.
#[derive(Clone, Copy, Debug)]
pub struct PlayedFrame {
    /// The number of its packet.
    pub number: u64,
    /// The slot of that packet.
    pub slot: usize,
    /// Its place among the frames of the packet.
    pub place: u32,
}

impl PlayedFrame {
    /// Frame 0.
    pub fn first() -> PlayedFrame
        ensures { (frames cap : ℕ) → IsPlayedFrame frames cap 0 result }
    {
        PlayedFrame {
            number: 0,
            slot: 0,
            place: 0,
        }
    }

    /// That which is played at the tick after `tick`, where this is played at `tick`, or is frame 0 and is not played yet. Frame 0
    /// is played at tick `playout`.
    pub fn at_next_tick(self, window: Window, tick: u64) -> PlayedFrame
        requires some_frames { 0 < window.frames }
        requires some_slots { 0 < window.cap }
        requires early { tick < 2 ^ 63 }
        requires frame { IsPlayedFrame window.frames window.cap (tick - window.playout) self }
        ensures { IsPlayedFrame window.frames window.cap (tick + 1 - window.playout) result }
    {
        if tick < u64::from(window.playout) {
            return self;
        }
        self.next(window.frames, window.cap)
    }

    /// The next frame, where a packet has `frames` of them and there are `cap` slots.
    pub fn next(self, frames: u32, cap: u32) -> PlayedFrame
        requires some_frames { 0 < frames }
        requires some_slots { 0 < cap }
        requires frame { (n : ℕ) × (n < 2 ^ 63) × IsPlayedFrame frames cap n self }
        ensures { (n : ℕ) → IsPlayedFrame frames cap n self → IsPlayedFrame frames cap (n + 1) result }
    {
        let place = self.place + 1;
        if place < frames {
            return PlayedFrame { place, ..self };
        }
        PlayedFrame {
            number: self.number + 1,
            slot: slot_after(self.slot, cap),
            place: 0,
        }
    }
}

// The slot after this one, in the ring.
fn slot_after(slot: usize, cap: u32) -> usize
    requires { slot < cap }
    ensures { (i : ℕ) → slot ≡ i % cap → result ≡ (i + 1) % cap }
{
    let next = slot + 1;
    if next < cap as usize { next } else { 0 }
}
