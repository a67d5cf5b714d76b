//! Frames that wait to be written.

ghost use Rattle.std.specs.Prelude.{◌≡◌, ◌+◌, ◌-◌, ◌<◌, ◌≤◌, [], ◌∷◌, ◌++◌, All, length, take, sum_by, IfOk, MatchOption};
ghost use Rattle.hdlc_channel.specs.SlowStream.{room_of};
ghost use Rattle.hdlc_channel.specs.Outgoing.{IsContentOfFirst};

use crate::fcs::fcs;
use circular_buffer::HeapCircularBuffer;
use link_base::NoMemory;
use std::alloc::Global;
use std::marker::Model;

/// The octets that there is room for, where each frame takes up two more than it has.
const ROOM: usize = 8192;

/// The most frames that there is room for.
const MOST_FRAMES: usize = ROOM / 2;

/// The frames that are not yet begun, the oldest first.
#[derive(Drop)]
pub(crate) struct FrameQueue {
    lengths: HeapCircularBuffer<u16>,
    // The octets of the frames, one frame after another.
    octets: HeapCircularBuffer<u8>,
}

impl Model for FrameQueue {
    ghost use Rattle.std.specs.Prelude.{ℕ, List};

    ghost Value = { List (List ℕ) };

    ghost use Rattle.hdlc_channel.specs.Outgoing.{cut, IsQueue};

    ghost view = { λ q. cut q.lengths.items q.octets.items };

    ghost invariant = { λ q. IsQueue q.lengths.items q.octets.items q.lengths.capacity q.octets.capacity };
}

impl FrameQueue {
    /// No frames, with room for 8,192 octets.
    pub(crate) fn begin(alloc: Global) -> Result<FrameQueue, NoMemory>
        ensures { IfOk result (λ q. q ≡ []) }
    {
        let lengths = HeapCircularBuffer::with_capacity(alloc, MOST_FRAMES)?;
        let octets = HeapCircularBuffer::with_capacity(alloc, ROOM)?;
        Ok(FrameQueue { lengths, octets })
    }

    /// The octets that there is room for.
    pub(crate) fn room(&self) -> usize
        ensures { result ≡ room_of self.now }
    {
        ROOM - (self.octets.len() + 2 * self.lengths.len())
    }

    /// Appends a frame, for which there is room.
    pub(crate) fn push(&mut self, frame: &[u8])
        requires few { length frame.now ≤ 1500 }
        requires room { length frame.now + 2 ≤ room_of self.old }
        ensures { self.new ≡ self.old ++ frame.now ∷ [] }
    {
        let _ = self.lengths.push_back(frame.len() as u16);
        self.octets.extend_from_slice(frame);
    }

    /// Moves the oldest frame to the front of `octets`, and says how many octets it has. None means that there is no frame.
    pub(crate) fn pop(&mut self, octets: &mut [u8]) -> Option<usize>
        requires { 1500 ≤ length octets.old }
        ensures frame { MatchOption result (self.old ≡ []) (λ n. self.old ≡ take n octets.new ∷ self.new) }
        ensures none { MatchOption result (self.new ≡ self.old) (λ n. n ≤ 1500) }
    {
        let Some(len) = self.lengths.pop_front() else {
            return None;
        };
        let len = usize::from(len);
        self.octets.read_into(&mut octets[..len]);
        Some(len)
    }

    /// Moves the content of the oldest frame, which ends with its sequence, to the front of `octets`, and says how many octets
    /// it has. None means that there is no frame.
    pub(crate) fn pop_content(&mut self, octets: &mut [u8]) -> Option<usize>
        requires { length octets.old ≡ 1502 }
        ensures { MatchOption result ((self.old ≡ []) × (self.new ≡ [])) (IsContentOfFirst self.old self.new octets.new) }
    {
        let Some(len) = self.pop(octets) else {
            return None;
        };
        let fcs = fcs(&octets[..len]);
        octets[len] = (fcs & 0xff) as u8;
        octets[len + 1] = (fcs >> 8) as u8;
        Some(len + 2)
    }
}
