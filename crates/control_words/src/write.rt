ghost use Rattle.std.specs.Prelude.{◌≡◌, ℕ, ◌<◌, length, slice_index};
ghost use Rattle.hyperframe.specs.Numbering.{frame_x, frame_z, frame_bfn};
ghost use Rattle.link_base.specs.WordSize.{IsWordSize};
ghost use Rattle.control_words.specs.Announcement.{IsWithinTable};
ghost use Rattle.control_words.specs.Places.{managed_before};
ghost use Rattle.control_words.specs.ControlWord.{octet_of, word};

use crate::Announce;
use arrayvec::ArrayVec;
use hyperframe::{FramePlace, place_of};

/// The comma K28.5 as an octet of a frame.
pub(crate) const COMMA: u8 = 0xBC;
/// What stands beside the comma.
pub(crate) const FILLER: u8 = 0x50;

/// Octet `y` of the channels in a word, whose first octets they are, or 0 behind them.
fn channel_octet(managed: &[u8], y: usize) -> u8
    ensures { result ≡ slice_index managed.now y }
{
    managed.get(y).copied().unwrap_or(0)
}

/// Octet `y` of the control word at a place of the link.
#[tactic(auto, unfolding(crate::specs::ControlWord::octet_of))]
fn octet_at<const Y: usize>(place: FramePlace, y: usize, a: Announce, managed: &[u8]) -> u8
    requires size { IsWordSize Y }
    requires within { IsWithinTable Y a }
    requires managed { length managed.now ≡ managed_before Y place.x a }
    requires in_word { y < Y }
    requires bfn { place.bfn < 4096 }
    ensures { result ≡ octet_of place.x place.z place.bfn a managed.now y }
{
    if y != 0 {
        return if place.x == 0 {
            FILLER
        } else {
            channel_octet(managed, y)
        };
    }
    match place.x {
        0 => COMMA,
        64 => place.z,
        128 => (place.bfn % 256) as u8,
        192 => (place.bfn / 256) as u8,
        2 => a.version,
        66 => a.hdlc,
        130 => a.l1,
        194 => a.pointer,
        _ => channel_octet(managed, 0),
    }
}

/// The `Y` octets of the control word of basic frame `n`. `managed` has those of its octets that belong
/// to the management channels, in order.
pub fn control_word<const Y: usize>(n: u64, a: Announce, managed: &[u8]) -> ArrayVec<u8, 16>
    requires size { IsWordSize Y }
    requires within { IsWithinTable Y a }
    requires managed { length managed.now ≡ managed_before Y (frame_x n) a }
    ensures word { result.items ≡ word Y n a managed.now }
    // What the channels carry stands first.
    ensures channels { (y : ℕ) → y < length managed.now
        → slice_index result.items y ≡ slice_index managed.now y }
{
    let place = place_of(n);
    let mut word = ArrayVec::new();
    for y in 0..Y {
        word.push(octet_at::<Y>(place, y, a, managed));
    }
    word
}
