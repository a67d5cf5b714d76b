ghost use Rattle.std.specs.Prelude.{◌≡◌, ℕ, ◌+◌, ◌*◌, ◌<◌, List, length, Ok, IfOk, slice_index};
ghost use Rattle.hyperframe.specs.Numbering.{frame_z, frame_bfn};
ghost use Rattle.link_base.specs.WordSize.{IsWordSize};
ghost use Rattle.control_words.specs.Announcement.{IsWithinTable};
ghost use Rattle.control_words.specs.ControlWord.{words_of_hyperframe};
ghost use Rattle.control_words.specs.Reading.{control_octet, is_synchronized, announced, numbers};

use crate::announce::{allows_hdlc, allows_pointer};
use crate::write::{COMMA, FILLER};
use crate::{Announce, BadControl};

/// D5.6, which other equipment may send beside the comma.
const OTHER_FILLER: u8 = 0xC5;

/// Octet 0 of word `x`.
fn first_octet<const Y: usize>(control: &[u8], x: usize) -> u8
    requires size { IsWordSize Y }
    requires whole { length control.now ≡ 256 * Y }
    requires word { x < 256 }
    ensures { result ≡ control_octet Y control.now x 0 }
{
    control[Y * x]
}

/// Whether the words begin with the comma, and with a filler where there is room for one.
fn is_synchronized<const Y: usize>(control: &[u8]) -> bool
    requires size { IsWordSize Y }
    requires whole { length control.now ≡ 256 * Y }
    ensures { result ≡ is_synchronized Y control.now }
{
    control[0] == COMMA && (Y == 1 || control[1] == FILLER || control[1] == OTHER_FILLER)
}

/// What the 256 control words of a hyperframe announce, one word of `Y` octets after another.
pub fn announce_of<const Y: usize>(control: &[u8]) -> Result<Announce, BadControl>
    requires size { IsWordSize Y }
    requires whole { length control.now ≡ 256 * Y }
    ensures announced { result ≡ announced Y control.now }
    ensures within { IfOk result (IsWithinTable Y) }
{
    if !is_synchronized::<Y>(control) {
        return Err(BadControl::Sync);
    }
    let version = first_octet::<Y>(control, 2);
    if version != 1 {
        return Err(BadControl::Version { got: version });
    }
    let rate = first_octet::<Y>(control, 66);
    if !allows_hdlc(Y, rate % 8) {
        return Err(BadControl::Hdlc { got: rate });
    }
    let pointer = first_octet::<Y>(control, 194);
    if !allows_pointer(pointer % 64) {
        return Err(BadControl::Pointer { got: pointer });
    }
    Ok(Announce {
        version,
        hdlc: rate % 8,
        pointer: pointer % 64,
        l1: first_octet::<Y>(control, 130) % 32,
    })
}

/// Z and BFN in the 256 control words of a hyperframe.
pub fn numbers_of<const Y: usize>(control: &[u8]) -> (u8, u16)
    requires size { IsWordSize Y }
    requires whole { length control.now ≡ 256 * Y }
    ensures { result ≡ numbers Y control.now }
{
    let low = u16::from(first_octet::<Y>(control, 128));
    let high = u16::from(first_octet::<Y>(control, 192) % 16);
    (first_octet::<Y>(control, 64), low + 256 * high)
}

/// A hyperframe's control words are read as they were written: whatever the management channels
/// carry, they announce what was announced in them, and have the Z and BFN of each of their frames.
pub fn announcement_is_read_back<const Y: usize>()
    requires { IsWordSize Y }
    ensures announced { (h : ℕ) (a : Announce) (managed : ℕ → List ℕ) → IsWithinTable Y a
        → announced Y (words_of_hyperframe Y h a managed) ≡ Ok a }
    ensures numbers { (h x : ℕ) (a : Announce) (managed : ℕ → List ℕ) → x < 256
        → numbers Y (words_of_hyperframe Y h a managed)
        ≡ (frame_z (256 * h + x), frame_bfn (256 * h + x)) }
{}
