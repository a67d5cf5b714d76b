// Bits put into an octet list from words.
ghost use Rattle.std.specs.Prelude.{◌≡◌, ℕ, ◌+◌, ◌*◌, ◌/◌, ◌^◌, ◌<◌, ◌≤◌, length};
ghost use Rattle.std.specs.Int.{bit_at};
ghost use Rattle.link_base.specs.Bits.{bit_of};
ghost use Rattle.sample_bits.specs.Copied.{PutsBits};

use crate::words::{load, replaced, store};

/// Puts the lowest `count` bits of a word into the octets from bit `at` on. The bits after them, up to bit `limit`, may
/// change too, so that who fills octets from the lowest bit on reads no octet that is written later. All others stay.
#[inline]
pub fn put_bits(octets: &mut [u8], at: usize, count: usize, limit: usize, word: u64)
    requires some { 0 < count }
    requires few { count ≤ 56 }
    requires within { at + count ≤ limit }
    requires room { limit ≤ 8 * length octets.old }
    ensures { PutsBits word octets.old octets.new at count limit }
{
    let octet = at / 8;
    let bit = (at % 8) as u32;
    if octet + 8 <= limit / 8 {
        let first = octets[octet];
        store(octets, octet, word_behind(first, bit, word));
    } else {
        let old = load(&octets[octet..]);
        store(octets, octet, replaced(old, word, bit, count as u32));
    }
}

// The lowest bits of an octet, and behind them the bits of a word.
#[inline]
fn word_behind(octet: u8, bit: u32, word: u64) -> u64
    requires { bit < 8 }
    ensures octet { (j : ℕ) → j < bit → bit_at result j ≡ bit_at octet j }
    ensures word { (j : ℕ) → bit + j < 64 → bit_at result (bit + j) ≡ bit_at word j }
{
    u64::from(octet) & ((1 << bit) - 1) | word << bit
}

/// Clears the bits from `at` up to `end`, which is left out. All others stay.
pub fn clear_bits(octets: &mut [u8], at: usize, end: usize)
    requires { end ≤ 8 * length octets.old }
    ensures cleared { (k : ℕ) → at ≤ k → k < end → bit_of octets.new k ≡ 0 }
    ensures before { (k : ℕ) → k < at → bit_of octets.new k ≡ bit_of octets.old k }
    ensures after { (k : ℕ) → end ≤ k → bit_of octets.new k ≡ bit_of octets.old k }
{
    let mut next = at;
    while next < end {
        let count = (end - next).min(56);
        put_bits(octets, next, count, end, 0);
        next += count;
    }
}
