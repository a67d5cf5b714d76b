//! Control words of any word size.

ghost use Rattle.std.specs.Prelude.{◌≡◌, ◌*◌, length, IfOk};
ghost use Rattle.link_base.specs.WordSize.{IsWordSize};
ghost use Rattle.control_words.specs.Announcement.{IsWithinTable};
ghost use Rattle.control_words.specs.Reading.{announced, numbers};

use control_words::{Announce, BadControl, announce_of, numbers_of};

/// What the 256 control words of a hyperframe announce.
pub(crate) fn announced(width: usize, control: &[u8]) -> Result<Announce, BadControl>
    requires size { IsWordSize width }
    requires whole { length control.now ≡ 256 * width }
    ensures announced { result ≡ announced width control.now }
    ensures within { IfOk result (IsWithinTable width) }
{
    match width {
        1 => announce_of::<1>(control),
        2 => announce_of::<2>(control),
        4 => announce_of::<4>(control),
        5 => announce_of::<5>(control),
        8 => announce_of::<8>(control),
        10 => announce_of::<10>(control),
        _ => announce_of::<16>(control),
    }
}

/// Z and BFN in the 256 control words of a hyperframe.
pub(crate) fn numbers(width: usize, control: &[u8]) -> (u8, u16)
    requires size { IsWordSize width }
    requires whole { length control.now ≡ 256 * width }
    ensures { result ≡ numbers width control.now }
{
    match width {
        1 => numbers_of::<1>(control),
        2 => numbers_of::<2>(control),
        4 => numbers_of::<4>(control),
        5 => numbers_of::<5>(control),
        8 => numbers_of::<8>(control),
        10 => numbers_of::<10>(control),
        _ => numbers_of::<16>(control),
    }
}
