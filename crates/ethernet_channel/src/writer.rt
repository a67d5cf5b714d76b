//! Frames onto the fast channel.

ghost use Rattle.std.specs.Prelude.{◌≡◌, ◌↔◌, ◌+◌, ◌<◌, ◌≤◌, [], ◌∷◌, ◌++◌, length, IfOk, IsErr, OnOk, IfErr};
ghost use Rattle.ethernet_channel.specs.Bits.{octet_bits};
ghost use Rattle.ethernet_channel.specs.FastStream.{new_channel, fast_stream, after_bits, room_of};

use crate::encoder::Encoder;
use crate::encoding::IDLE;
use crate::frame_queue::FrameQueue;
use crate::register::Register;
use link_base::{Full, NoMemory};
use std::alloc::Global;
use std::marker::Model;

/// Writes queued frames onto the fast channel, and I where there is none.
#[derive(Drop)]
pub struct FastWriter {
    encoder: Encoder,
}

impl Model for FastWriter {
    ghost use Rattle.ethernet_channel.specs.FastStream.{Channel};

    ghost Value = { Channel };

    ghost use Rattle.ethernet_channel.specs.Encodes.{channel_of, IsParted};

    ghost view = { λ w. channel_of w.encoder };

    ghost invariant = { λ w. IsParted w.encoder };
}

impl FastWriter {
    /// A writer with one I to be written and no frame queued.
    pub fn begin(alloc: Global) -> Result<FastWriter, NoMemory>
        ensures { IfOk result (λ writer. writer ≡ new_channel) }
    {
        Ok(FastWriter {
            encoder: Encoder {
                register: Register::new(IDLE, 5),
                within: false,
                preamble: 0,
                frames: FrameQueue::begin(alloc)?,
            },
        })
    }

    /// Appends a MAC frame, which carries its own FCS.
    pub fn queue(&mut self, frame: &[u8]) -> Result<(), Full>
        requires some { 1 ≤ length frame.now }
        requires few { length frame.now ≤ 1522 }
        ensures full { IsErr result ↔ (room_of self.old.queue < length frame.now + 2) }
        ensures ok { OnOk result (self.new ≡ record self.old { queue = self.old.queue ++ frame.now ∷ [] }) }
        ensures err { IfErr result (λ full. (full.room ≡ room_of self.old.queue) × (self.new ≡ self.old)) }
    {
        self.encoder.frames.push(frame)
    }

    /// The next octet of the stream.
    pub fn next(&mut self) -> u8
        ensures bits { octet_bits result ≡ fast_stream self.old 8 }
        ensures after { self.new ≡ after_bits 8 self.old }
    {
        self.encoder.fill();
        self.encoder.register.take_octet()
    }
}
