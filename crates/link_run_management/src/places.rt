//! The octets of the management channels in a control word, which are its first.

ghost use Rattle.std.specs.Prelude.{◌≡◌, ◌<◌, ◌≤◌, ℕ, nat_lt};
ghost use Rattle.link_base.specs.WordSize.{IsWordSize};
ghost use Rattle.control_words.specs.Announcement.{IsWithinTable};
ghost use Rattle.control_words.specs.Places.{is_slow_place, is_fast_place};
ghost use Rattle.link_run_management.specs.Reads.{IsCarried};

use control_words::{Announce, fast_octet, managed_len};

/// The channel of which a control word carries octets, and how many. They are the word's first.
#[derive(Clone, Copy)]
pub(crate) enum Carried {
    Slow(usize),
    Fast(usize),
    Neither,
}

/// How many octets of the control word of place `x` belong to the slow channel. They are its first.
pub fn slow_len<const Y: usize>(x: u8, a: Announce) -> usize
    requires size { IsWordSize Y }
    requires within { IsWithinTable Y a }
    ensures fits { result ≤ Y }
    ensures first { (y : ℕ) → y < Y → is_slow_place a.hdlc x y ≡ nat_lt y result }
{
    if fast_octet::<Y>(x, 0, a) {
        return 0;
    }
    managed_len::<Y>(x, a)
}

/// How many octets of the control word of place `x` belong to the fast channel: all or none.
pub fn fast_len<const Y: usize>(x: u8, a: Announce) -> usize
    requires size { IsWordSize Y }
    requires within { IsWithinTable Y a }
    ensures fits { result ≤ Y }
    ensures first { (y : ℕ) → y < Y → is_fast_place a.pointer x ≡ nat_lt y result }
{
    if fast_octet::<Y>(x, 0, a) { Y } else { 0 }
}

impl Carried {
    /// What the control word of place `x` carries.
    fn at<const Y: usize>(x: u8, a: Announce) -> Carried
        requires size { IsWordSize Y }
        requires within { IsWithinTable Y a }
        ensures { IsCarried a Y x result }
    {
        let fast = fast_len::<Y>(x, a);
        if fast > 0 {
            return Carried::Fast(fast);
        }
        match slow_len::<Y>(x, a) {
            0 => Carried::Neither,
            slow => Carried::Slow(slow),
        }
    }

    /// What the control word of place `x` carries, in words of so many octets.
    pub(crate) fn of(width: usize, x: u8, a: Announce) -> Carried
        requires size { IsWordSize width }
        requires within { IsWithinTable width a }
        ensures { IsCarried a width x result }
    {
        match width {
            1 => Carried::at::<1>(x, a),
            2 => Carried::at::<2>(x, a),
            4 => Carried::at::<4>(x, a),
            5 => Carried::at::<5>(x, a),
            8 => Carried::at::<8>(x, a),
            10 => Carried::at::<10>(x, a),
            _ => Carried::at::<16>(x, a),
        }
    }
}
