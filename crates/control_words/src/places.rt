ghost use Rattle.std.specs.Prelude.{◌≡◌, ℕ, ◌<◌, ◌≤◌, nat_lt};
ghost use Rattle.link_base.specs.WordSize.{IsWordSize};
ghost use Rattle.control_words.specs.Announcement.{IsWithinTable};
ghost use Rattle.control_words.specs.Places.{is_slow_place, is_fast_place, is_managed_place, managed_before};

use crate::Announce;

/// The number of subchannels: that of word X is X mod 64 (CPRI Specification V7.0, section 4.2.7.4).
const SUBCHANNELS: u8 = 64;

/// How many octets of word `x` belong to the slow channel. They are its first.
#[tactic(auto, unfolding(crate::specs::Places::is_slow_place))]
fn slow_width<const Y: usize>(x: u8, a: Announce) -> usize
    requires size { IsWordSize Y }
    requires within { IsWithinTable Y a }
    ensures fits { result ≤ Y }
    ensures first { (y : ℕ) → y < Y → is_slow_place a.hdlc x y ≡ nat_lt y result }
{
    if x % SUBCHANNELS != 1 {
        return 0;
    }
    match a.hdlc {
        1 if x == 1 || x == 129 => 1,
        2 => 1,
        3 => 2,
        4 => 4,
        5 => 5,
        6 => Y,
        _ => 0,
    }
}

/// Whether the octets of word `x` belong to the fast channel.
fn is_fast<const Y: usize>(x: u8, a: Announce) -> bool
    requires { IsWithinTable Y a }
    ensures { result ≡ is_fast_place a.pointer x }
{
    a.pointer != 0 && x % SUBCHANNELS >= a.pointer
}

/// Whether octet `y` of the control word of place `x` belongs to the slow channel.
pub fn slow_octet<const Y: usize>(x: u8, y: usize, a: Announce) -> bool
    requires size { IsWordSize Y }
    requires within { IsWithinTable Y a }
    requires in_word { y < Y }
    ensures { result ≡ is_slow_place a.hdlc x y }
{
    y < slow_width::<Y>(x, a)
}

/// Whether octet `y` of the control word of place `x` belongs to the fast channel.
pub fn fast_octet<const Y: usize>(x: u8, y: usize, a: Announce) -> bool
    requires size { IsWordSize Y }
    requires within { IsWithinTable Y a }
    requires in_word { y < Y }
    ensures { result ≡ is_fast_place a.pointer x }
{
    is_fast::<Y>(x, a)
}

/// How many octets of the control word of place `x` belong to the two channels. They are its first.
pub fn managed_len<const Y: usize>(x: u8, a: Announce) -> usize
    requires size { IsWordSize Y }
    requires within { IsWithinTable Y a }
    ensures count { result ≡ managed_before Y x a }
    ensures first { (y : ℕ) → y < Y → is_managed_place a x y ≡ nat_lt y result }
{
    if is_fast::<Y>(x, a) {
        return Y;
    }
    slow_width::<Y>(x, a)
}
