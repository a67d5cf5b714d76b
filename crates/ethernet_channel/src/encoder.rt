//! The next bits of the line, out of the frames that are queued.

ghost use Rattle.std.specs.Prelude.{◌≡◌, ◌<◌, ◌≤◌, length, true, false};

use crate::encoding::{ENDING, IDLE, START, encoded};
use crate::frame_queue::FrameQueue;
use crate::register::Register;

/// Octets of a frame's preamble after J K, which stand for the first one.
const PREAMBLE: u8 = 7;
/// An octet of the preamble.
const FILLING: u8 = 0x55;
/// The last octet of the preamble.
const DELIMITER: u8 = 0xd5;

/// Lays items out for the line: frames with one I after each, and I.
#[derive(Drop)]
pub(crate) struct Encoder {
    /// The bits that are laid out.
    pub(crate) register: Register,
    /// Whether a frame is in hand.
    pub(crate) within: bool,
    /// The octets of its preamble that are not yet laid out.
    pub(crate) preamble: u8,
    pub(crate) frames: FrameQueue,
}

impl Encoder {
    ghost use Rattle.ethernet_channel.specs.Encodes.{channel_of, IsParted, IsSameOctet, Refills};

    /// Lays out at least the next eight bits.
    pub(crate) fn fill(&mut self)
        requires { IsParted self.old }
        ensures same { IsSameOctet (channel_of self.old) (channel_of self.new) }
        ensures parted { IsParted self.new }
        ensures whole { 8 ≤ length self.new.register }
    {
        while self.register.len() < 8 {
            self.refill();
        }
    }

    /// Lays out the next group or two.
    fn refill(&mut self)
        requires parted { IsParted self.old }
        requires short { length self.old.register < 8 }
        ensures { Refills self.old self.new }
    {
        if !self.within {
            self.begin_item();
        } else if self.preamble > 0 {
            self.go_on_in_preamble();
        } else {
            self.go_on_in_frame();
        }
    }

    /// Begins the oldest frame, or an I where none is queued.
    fn begin_item(&mut self)
        requires parted { IsParted self.old }
        requires short { length self.old.register < 8 }
        requires between { self.old.within ≡ false }
        ensures { Refills self.old self.new }
    {
        if self.frames.begin_frame() {
            self.within = true;
            self.preamble = PREAMBLE;
            self.register.append(START, 10);
        } else {
            self.register.append(IDLE, 5);
        }
    }

    fn go_on_in_preamble(&mut self)
        requires short { length self.old.register < 8 }
        requires within { self.old.within ≡ true }
        requires preamble { 0 < self.old.preamble }
        ensures { Refills self.old self.new }
    {
        self.preamble -= 1;
        let octet = if self.preamble == 0 {
            DELIMITER
        } else {
            FILLING
        };
        self.register.append(encoded(octet), 10);
    }

    fn go_on_in_frame(&mut self)
        requires short { length self.old.register < 8 }
        requires within { self.old.within ≡ true }
        requires preamble { self.old.preamble ≡ 0 }
        ensures { Refills self.old self.new }
    {
        match self.frames.next_octet() {
            Some(octet) => self.register.append(encoded(octet), 10),
            None => {
                self.within = false;
                self.register.append(ENDING, 15);
            }
        }
    }
}
