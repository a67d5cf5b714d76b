// The management channels of a run.
ghost use Rattle.std.specs.Prelude.{◌≡◌, ◌*◌, ◌<◌, ◌≤◌, IfOk, length};
ghost use Rattle.control_words.specs.Announcement.{IsWithinTable};
ghost use Rattle.control_words.specs.Places.{managed_before};
ghost use Rattle.ethernet_channel.specs.FastStream as fast;
ghost use Rattle.hdlc_channel.specs.SlowStream as slow;
ghost use Rattle.hyperframe.specs.Numbering.{frame_x};
ghost use Rattle.link_base.specs.WordSize.{IsWordSize};
ghost use Rattle.link_sender.specs.Channels.{fast_left, fast_next, managed_next, slow_left, slow_next};
ghost use Rattle.link_sender.specs.Managed.{fast_in_word, slow_in_word};

use arrayvec::ArrayVec;
use control_words::{Announce, managed_len, slow_octet};
use ethernet_channel::FastWriter;
use hdlc_channel::SlowWriter;
use hyperframe::place_of;
use link_base::NoMemory;
use std::alloc::Global;

/// The writers of the channels.
#[derive(Drop)]
pub struct Channels {
    pub slow: SlowWriter,
    pub fast: FastWriter,
}

impl Channels {
    /// Both before their first octet. All their memory is taken here.
    pub fn begin(alloc: Global) -> Result<Channels, NoMemory>
        ensures slow { IfOk result (λ channels. channels.slow ≡ slow.new_channel) }
        ensures fast { IfOk result (λ channels. channels.fast ≡ fast.new_channel) }
    {
        Ok(Channels {
            slow: SlowWriter::begin(alloc)?,
            fast: FastWriter::begin(alloc)?,
        })
    }

    /// The octets of the channel whose word the control word of frame `n` is. Other words have none.
    pub fn next<const Y: usize>(&mut self, n: u64, announce: Announce) -> ArrayVec<u8, 16>
        requires size { IsWordSize Y }
        requires within { IsWithinTable Y announce }
        ensures octets { result.items ≡ managed_next Y announce (frame_x n) self.old.slow self.old.fast }
        ensures length { length result.items ≡ managed_before Y (frame_x n) announce }
        ensures slow { self.new.slow ≡ slow_left (slow_in_word Y announce (frame_x n)) self.old.slow }
        ensures fast { self.new.fast ≡ fast_left (fast_in_word Y announce (frame_x n)) self.old.fast }
    {
        let x = place_of(n).x;
        let count = managed_len::<Y>(x, announce);
        if slow_octet::<Y>(x, 0, announce) {
            slow_octets(&mut self.slow, count)
        } else {
            fast_octets(&mut self.fast, count)
        }
    }
}

// The next octets of the slow channel.
fn slow_octets(writer: &mut SlowWriter, count: usize) -> ArrayVec<u8, 16>
    requires { count ≤ 16 }
    ensures octets { result.items ≡ slow_next count writer.old }
    ensures length { length result.items ≡ count }
    ensures left { writer.new ≡ slow_left count writer.old }
{
    let mut octets = ArrayVec::new();
    for _ in 0..count {
        octets.push(writer.next());
    }
    octets
}

// The next octets of the fast channel.
fn fast_octets(writer: &mut FastWriter, count: usize) -> ArrayVec<u8, 16>
    requires { count ≤ 16 }
    ensures octets { result.items ≡ fast_next count writer.old }
    ensures length { length result.items ≡ count }
    ensures left { writer.new ≡ fast_left count writer.old }
{
    let mut octets = ArrayVec::new();
    for _ in 0..count {
        octets.push(writer.next());
    }
    octets
}
