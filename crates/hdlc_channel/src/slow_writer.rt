//! Writes the slow channel.

ghost use Rattle.std.specs.Prelude.{◌≡◌, ◌+◌, ◌<◌, ◌≤◌, ◌↔◌, [], ◌∷◌, ◌++◌, length, IfOk, IsErr, OnOk, OnErr, IfErr};
ghost use Rattle.hdlc_channel.specs.Bits.{octet_bits};
ghost use Rattle.hdlc_channel.specs.SlowStream.{after_eight, new_channel, room_of, slow_stream};
ghost use Rattle.hdlc_channel.specs.Outgoing.{channel_of, filled};

use crate::frame_queue::FrameQueue;
use crate::outgoing::Outgoing;
use link_base::{Full, NoMemory};
use std::alloc::Global;
use std::marker::Model;

/// A writer of the slow channel, which gives eight bits after another. Contracts see what is not yet written: the rest of the
/// item whose first bit was given last, and the frames that are not yet begun.
#[derive(Drop)]
pub struct SlowWriter {
    outgoing: Outgoing,
    queue: FrameQueue,
}

impl Model for SlowWriter {
    ghost use Rattle.hdlc_channel.specs.SlowStream.{Channel};

    ghost Value = { Channel };

    ghost use Rattle.hdlc_channel.specs.Outgoing.{channel_of};

    ghost view = { λ w. channel_of w.outgoing w.queue };
}

// Lays out eight bits at least.
fn fill(outgoing: &mut Outgoing, queue: &mut FrameQueue)
    ensures enough { 8 ≤ length outgoing.new.ready }
    ensures same { channel_of outgoing.new queue.new ≡ filled (channel_of outgoing.old queue.old) }
{
    if outgoing.ready_len() >= 8 {
        return;
    }
    if outgoing.is_last() {
        outgoing.begin_item(queue);
    } else {
        outgoing.stuff();
    }
}

impl SlowWriter {
    /// A writer before its first bit. All memory that it needs is taken here.
    pub fn begin(alloc: Global) -> Result<SlowWriter, NoMemory>
        ensures { IfOk result (λ w. w ≡ new_channel) }
    {
        let outgoing = Outgoing::begin(alloc)?;
        let queue = FrameQueue::begin(alloc)?;
        Ok(SlowWriter { outgoing, queue })
    }

    /// Queues a frame of 1 to 1,500 octets. It is refused exactly where its length and two more exceed the room, and nothing
    /// changes then.
    pub fn queue(&mut self, frame: &[u8]) -> Result<(), Full>
        requires some { 1 ≤ length frame.now }
        requires few { length frame.now ≤ 1500 }
        ensures full { IsErr result ↔ (room_of self.old.queue < length frame.now + 2) }
        ensures room { IfErr result (λ full. full.room ≡ room_of self.old.queue) }
        ensures ok { OnOk result (self.new ≡ record self.old { queue = self.old.queue ++ frame.now ∷ [] }) }
        ensures err { OnErr result (self.new ≡ self.old) }
    {
        let room = self.queue.room();
        if frame.len() + 2 > room {
            return Err(Full { room });
        }
        self.queue.push(frame);
        Ok(())
    }

    /// The next eight bits of the stream, the first one lowest.
    pub fn next(&mut self) -> u8
        ensures bits { octet_bits result ≡ slow_stream self.old 8 }
        ensures left { self.new ≡ after_eight self.old }
    {
        fill(&mut self.outgoing, &mut self.queue);
        self.outgoing.take_octet()
    }
}
