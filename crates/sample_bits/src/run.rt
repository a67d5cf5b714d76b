// Samples that stand one after another in an octet list.
ghost use Rattle.std.specs.Prelude.{◌≡◌, ℕ, ◌+◌, ◌*◌, ◌/◌, ◌^◌, ◌<◌, ◌≤◌, length};
ghost use Rattle.std.specs.List.{HoldsAt};
ghost use Rattle.sample_bits.specs.SampleOfBits.{sample_at};

use crate::iq::{Iq, RawIq};

/// Reads samples of I and Q in M bits each that stand one after another from bit `from` of the octets on.
pub fn read_run<const M: u32>(octets: &[u8], from: usize, out: &mut [RawIq])
    requires least { 4 ≤ M }
    requires most { M ≤ 20 }
    requires within { from + 2 * M * length out.old ≤ 8 * length octets.now }
    requires counts { from + 2 * M * length out.old < 2 ^ 64 }
    ensures { (i : ℕ) → i < length out.old
        → HoldsAt (λ s. s ≡ sample_at M octets.now (from + 2 * M * i)) out.new i }
{
    let fours = whole_fours::<M>(octets.len(), from / 8).min(out.len() / 4);
    read_fours::<M>(octets, from / 8, (from % 8) as u32, fours, out);
    for index in 4 * fours..out.len() {
        out[index] = Iq::<M>::read(octets, from + 2 * M as usize * index).wide();
    }
}

// How many times four samples can be read by whole words of eight octets, of so many octets, where the first sample begins in
// this one.
#[inline]
fn whole_fours<const M: u32>(len: usize, octet: usize) -> usize
    requires least { 4 ≤ M }
    requires most { M ≤ 20 }
    requires place { octet < 2 ^ 62 }
    ensures { (four : ℕ) → four < result → octet + M * four + 6 * M / 8 + 8 ≤ len }
{
    let end = octet + (6 * M / 8) as usize + 8;
    if len < end {
        0
    } else {
        (len - end) / M as usize + 1
    }
}

// Reads samples four at a time, of which the first begins at bit `bit` of octet `octet`. Four samples have M octets, so each begins
// at the same bit of an octet as the one four places before it. The bits of all four are taken before one of them is put, so that
// they are worked out side by side.
#[inline]
fn read_fours<const M: u32>(octets: &[u8], octet: usize, bit: u32, fours: usize, out: &mut [RawIq])
    requires least { 4 ≤ M }
    requires most { M ≤ 20 }
    requires bit { bit < 8 }
    requires within { (four : ℕ) → four < fours → octet + M * four + 6 * M / 8 + 8 ≤ length octets.now }
    requires room { 4 * fours ≤ length out.old }
    ensures { (i : ℕ) → i < 4 * fours
        → HoldsAt (λ s. s ≡ sample_at M octets.now (8 * octet + bit + 2 * M * i)) out.new i }
{
    for four in 0..fours {
        let at = octet + M as usize * four;
        let first = Iq::<M>::read_within(octets, at, bit);
        let second = Iq::<M>::read_within(octets, at + (2 * M / 8) as usize, bit + 2 * M % 8);
        let third = Iq::<M>::read_within(octets, at + (4 * M / 8) as usize, bit + 4 * M % 8);
        let fourth = Iq::<M>::read_within(octets, at + (6 * M / 8) as usize, bit + 6 * M % 8);
        out[4 * four] = first;
        out[4 * four + 1] = second;
        out[4 * four + 2] = third;
        out[4 * four + 3] = fourth;
    }
}
