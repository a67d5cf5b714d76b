//! The octets of the management channels in the control words of a hyperframe.

ghost use Rattle.std.specs.Prelude.{◌≡◌, ℕ, ◌+◌, ◌*◌, ◌<◌, ◌≤◌, nat_lt, ◌++◌, length, take, drop};
ghost use Rattle.link_base.specs.WordSize.{IsWordSize};
ghost use Rattle.control_words.specs.Announcement.{IsWithinTable};
ghost use Rattle.control_words.specs.Places.{is_slow_place, is_fast_place};
ghost use Rattle.link_run_inspect.specs.Managed.{octets_in_word, slow_octets, fast_octets};

use arrayvec::ArrayVec;
use control_words::Announce;
use link_run_management::{fast_len, slow_len};

/// The octets of a channel in a hyperframe, at most all octets of its control words.
pub(crate) type Octets = ArrayVec<u8, 4096>;

/// Appends the first octets of word `x`.
fn put_front<const Y: usize>(x: usize, count: usize, control: &[u8], out: &mut Octets)
    requires size { IsWordSize Y }
    requires whole { length control.now ≡ 256 * Y }
    requires place { x < 256 }
    requires few { count ≤ Y }
    requires room { length out.old.items ≤ Y * x }
    ensures octets { out.new.items ≡ out.old.items ++ take count (drop (Y * x) control.now) }
    ensures few { length out.new.items ≤ Y * (x + 1) }
{
    if count == 0 {
        return;
    }
    let at = Y * x;
    out.try_extend_from_slice(&control[at..at + count]).unwrap();
}

/// Appends the octets of the slow channel in word `x`.
fn put_slow_word<const Y: usize>(x: usize, control: &[u8], a: Announce, out: &mut Octets)
    requires size { IsWordSize Y }
    requires within { IsWithinTable Y a }
    requires whole { length control.now ≡ 256 * Y }
    requires place { x < 256 }
    requires room { length out.old.items ≤ Y * x }
    ensures octets { out.new.items ≡ out.old.items ++ octets_in_word (is_slow_place a.hdlc) Y control.now x }
    ensures few { length out.new.items ≤ Y * (x + 1) }
{
    put_front::<Y>(x, slow_len::<Y>(x as u8, a), control, out);
}

/// The octets of the slow channel.
fn put_slow<const Y: usize>(control: &[u8], a: Announce, out: &mut Octets)
    requires size { IsWordSize Y }
    requires within { IsWithinTable Y a }
    requires whole { length control.now ≡ 256 * Y }
    ensures { out.new.items ≡ slow_octets Y a control.now }
{
    out.clear();
    for x in 0..256 {
        put_slow_word::<Y>(x, control, a, out);
    }
}

/// Appends the octets of the fast channel in word `x`.
fn put_fast_word<const Y: usize>(x: usize, control: &[u8], a: Announce, out: &mut Octets)
    requires size { IsWordSize Y }
    requires within { IsWithinTable Y a }
    requires whole { length control.now ≡ 256 * Y }
    requires place { x < 256 }
    requires room { length out.old.items ≤ Y * x }
    ensures octets { out.new.items ≡ out.old.items ++ octets_in_word (λ x y. is_fast_place a.pointer x) Y control.now x }
    ensures few { length out.new.items ≤ Y * (x + 1) }
{
    put_front::<Y>(x, fast_len::<Y>(x as u8, a), control, out);
}

/// The octets of the fast channel.
fn put_fast<const Y: usize>(control: &[u8], a: Announce, out: &mut Octets)
    requires size { IsWordSize Y }
    requires within { IsWithinTable Y a }
    requires whole { length control.now ≡ 256 * Y }
    ensures { out.new.items ≡ fast_octets Y a control.now }
{
    out.clear();
    for x in 0..256 {
        put_fast_word::<Y>(x, control, a, out);
    }
}

/// Replaces octets by those of the slow channel in the control words of a hyperframe.
pub(crate) fn take_slow(width: usize, control: &[u8], a: Announce, out: &mut Octets)
    requires size { IsWordSize width }
    requires within { IsWithinTable width a }
    requires whole { length control.now ≡ 256 * width }
    ensures { out.new.items ≡ slow_octets width a control.now }
{
    match width {
        1 => put_slow::<1>(control, a, out),
        2 => put_slow::<2>(control, a, out),
        4 => put_slow::<4>(control, a, out),
        5 => put_slow::<5>(control, a, out),
        8 => put_slow::<8>(control, a, out),
        10 => put_slow::<10>(control, a, out),
        _ => put_slow::<16>(control, a, out),
    }
}

/// Replaces octets by those of the fast channel in the control words of a hyperframe.
pub(crate) fn take_fast(width: usize, control: &[u8], a: Announce, out: &mut Octets)
    requires size { IsWordSize width }
    requires within { IsWithinTable width a }
    requires whole { length control.now ≡ 256 * width }
    ensures { out.new.items ≡ fast_octets width a control.now }
{
    match width {
        1 => put_fast::<1>(control, a, out),
        2 => put_fast::<2>(control, a, out),
        4 => put_fast::<4>(control, a, out),
        5 => put_fast::<5>(control, a, out),
        8 => put_fast::<8>(control, a, out),
        10 => put_fast::<10>(control, a, out),
        _ => put_fast::<16>(control, a, out),
    }
}
