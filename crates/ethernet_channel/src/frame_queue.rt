//! Frames that are not yet written.

ghost use Rattle.std.specs.Prelude.{◌≡◌, ◌↔◌, ◌+◌, ◌<◌, ◌≤◌, IsTrue, [], ◌∷◌, ◌++◌, length, drop, IfOk, IsErr, OnOk, IfErr, IfSome};
ghost use Rattle.std.specs.List.{slice_get};
ghost use Rattle.ethernet_channel.specs.FastStream.{room_of};
ghost use Rattle.ethernet_channel.specs.Queue.{begins};

use circular_buffer::HeapCircularBuffer;
use link_base::{Full, NoMemory};
use std::alloc::Global;
use std::marker::Model;

/// What the queue has room for: the octets of the frames that are not begun, and two for each.
const ROOM: usize = 8192;
/// The most frames that fit.
const MOST: usize = 2730;
/// Octets of a longest frame.
const LONGEST: usize = 1522;

/// The frames that are not begun, and the octets of the frame in hand that are not yet written.
#[derive(Drop)]
pub(crate) struct FrameQueue {
    /// The octets of all these, one frame after another.
    octets: HeapCircularBuffer<u8>,
    /// The lengths of the frames that are not begun.
    lengths: HeapCircularBuffer<u16>,
    /// How many octets are of the frame in hand.
    left: usize,
}

impl Model for FrameQueue {
    ghost use Rattle.std.specs.Prelude.{take, drop};
    ghost use Rattle.ethernet_channel.specs.Queue.{Frames, cut, IsQueue};

    ghost Value = { Frames };

    ghost view = { λ q. record { frame = take q.left q.octets.items; queue = cut q.lengths.items (drop q.left q.octets.items) } };

    ghost invariant = { λ q. IsQueue q.left q.lengths.items q.octets.items q.lengths.capacity q.octets.capacity };
}

impl FrameQueue {
    /// No frame, with room for as many as may be queued.
    pub(crate) fn begin(alloc: Global) -> Result<FrameQueue, NoMemory>
        ensures { IfOk result (λ frames. frames ≡ record { frame = []; queue = [] }) }
    {
        Ok(FrameQueue {
            octets: HeapCircularBuffer::with_capacity(alloc, ROOM + LONGEST)?,
            lengths: HeapCircularBuffer::with_capacity(alloc, MOST)?,
            left: 0,
        })
    }

    /// The octets that there is room for.
    fn room(&self) -> usize
        ensures { result ≡ room_of self.now.queue }
    {
        ROOM - (self.octets.len() - self.left + 2 * self.lengths.len())
    }

    /// Appends a frame.
    pub(crate) fn push(&mut self, frame: &[u8]) -> Result<(), Full>
        requires some { 1 ≤ length frame.now }
        requires few { length frame.now ≤ 1522 }
        ensures full { IsErr result ↔ (room_of self.old.queue < length frame.now + 2) }
        ensures ok { OnOk result (self.new ≡ record self.old { queue = self.old.queue ++ frame.now ∷ [] }) }
        ensures err { IfErr result (λ full. (full.room ≡ room_of self.old.queue) × (self.new ≡ self.old)) }
    {
        let room = self.room();
        if frame.len() + 2 > room {
            return Err(Full { room });
        }
        self.append(frame);
        Ok(())
    }

    fn append(&mut self, frame: &[u8])
        requires some { 1 ≤ length frame.now }
        requires few { length frame.now ≤ 1522 }
        requires room { length frame.now + 2 ≤ room_of self.old.queue }
        ensures { self.new ≡ record self.old { queue = self.old.queue ++ frame.now ∷ [] } }
    {
        self.octets.fill_from_slice(frame);
        let _ = self.lengths.push_back(frame.len() as u16);
    }

    /// Takes the oldest frame in hand, and answers whether there is one.
    pub(crate) fn begin_frame(&mut self) -> bool
        requires { self.old.frame ≡ [] }
        ensures { begins self.old result self.new }
    {
        match self.lengths.pop_front() {
            Some(length) => {
                self.left = length as usize;
                true
            }
            None => false,
        }
    }

    /// Takes the next octet of the frame in hand out, if there is one.
    pub(crate) fn next_octet(&mut self) -> Option<u8>
        ensures octet { result ≡ slice_get self.old.frame 0 }
        ensures rest { self.new ≡ record self.old { frame = drop 1 self.old.frame } }
    {
        if self.left == 0 {
            return None;
        }
        self.left -= 1;
        self.octets.pop_front()
    }
}
