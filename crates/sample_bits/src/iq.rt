// One sample of an antenna-carrier, as plain numbers and with the range of its width.
ghost use Rattle.std.specs.Prelude.{◌≡◌, ℕ, ◌+◌, ◌*◌, ◌^◌, ◌<◌, ◌≤◌, ◌↔◌, IsTrue, length};
ghost use Rattle.std.specs.Int.{bit_at};
ghost use Rattle.std.specs.Option.{SomeIff};
ghost use Rattle.link_base.specs.Bits.{bit_of};
ghost use Rattle.sample_bits.specs.declared.iq.RawIq.{RawIq as Raw};
ghost use Rattle.sample_bits.specs.Samples.{int_bit, sample_bit, FitsBits, IsWithin};
ghost use Rattle.sample_bits.specs.SampleOfBits.{sample_at};

use crate::interleaving::{unweave, weave};
use crate::words::{load, load_whole};
use std::marker::Model;

/// A sample as plain numbers, which no width bounds.
#[derive(Clone, Copy, PartialEq, Eq, Debug)]
pub struct RawIq {
    pub i: i32,
    pub q: i32,
}

/// A sample whose I and Q have M bits each, in two's complement. M is 4 to 20, in both directions of a link.
///
/// Contracts see it as the `RawIq` that `wide` gives.
#[derive(Clone, Copy, PartialEq, Eq, Debug)]
pub struct Iq<const M: u32> {
    i: i32,
    q: i32,
}

impl<const M: u32> Model for Iq<M> {
    ghost use Rattle.std.specs.Prelude.{◌≤◌};
    ghost use Rattle.sample_bits.specs.declared.iq.RawIq.{RawIq as Raw};
    ghost use Rattle.sample_bits.specs.Samples.{IsWithin};

    ghost Value = { Raw };

    ghost view = { λ s. record { i = s.i; q = s.q } };

    ghost invariant = { λ s. (4 ≤ M) × (M ≤ 20) × IsWithin M (record { i = s.i; q = s.q }) };

    ghost inverse = { λ v. record { i = v.i; q = v.q } };
}

impl<const M: u32> Iq<M> {
    /// The sample, where both of its numbers have M bits.
    pub fn narrow(raw: RawIq) -> Option<Self>
        requires least { 4 ≤ M }
        requires most { M ≤ 20 }
        ensures { SomeIff result (IsWithin M raw) raw }
    {
        if fits(raw.i, M) && fits(raw.q, M) {
            Some(Iq { i: raw.i, q: raw.q })
        } else {
            None
        }
    }

    /// The sample as plain numbers.
    #[inline]
    pub fn wide(self) -> RawIq
        ensures value { result ≡ self.entry }
        ensures within { IsWithin M result }
    {
        RawIq {
            i: self.i,
            q: self.q,
        }
    }

    /// The 2·M bits of the sample as a number: the bits of I and Q take turns from the lowest on, I first (CPRI
    /// Specification V7.0, section 4.2.7.2).
    #[inline]
    pub fn interleave(self) -> u64
        ensures bits { (k : ℕ) → k < 2 * M → bit_at result k ≡ sample_bit self.entry k }
        ensures no_others { result < 2 ^ (2 * M) }
    {
        self.wide().word(M)
    }

    /// The sample that has these bits.
    #[inline]
    pub fn deinterleave(word: u64) -> Self
        requires least { 4 ≤ M }
        requires most { M ≤ 20 }
        requires bits { word < 2 ^ (2 * M) }
        ensures within { IsWithin M result }
        ensures bits { (k : ℕ) → k < 2 * M → sample_bit result k ≡ bit_at word k }

        // No other sample has them, so this undoes `interleave`.
        ensures only { (s : Raw) → IsWithin M s
            → ((k : ℕ) → k < 2 * M → sample_bit s k ≡ bit_at word k)
            → s ≡ result }
    {
        let (even, odd) = unweave(word, M);
        Iq {
            i: signed(even, M),
            q: signed(odd, M),
        }
    }

    /// The sample whose bits stand from bit `from` of the octets on.
    #[inline]
    pub fn read(octets: &[u8], from: usize) -> Self
        requires least { 4 ≤ M }
        requires most { M ≤ 20 }
        requires within { from + 2 * M ≤ 8 * length octets.now }
        ensures { result ≡ sample_at M octets.now from }
    {
        Self::deinterleave(Self::word_at(octets, from))
    }

    // The bits of a sample that stand from bit `from` of the octets on.
    #[inline]
    fn word_at(octets: &[u8], from: usize) -> u64
        requires most { M ≤ 20 }
        requires within { from + 2 * M ≤ 8 * length octets.now }
        ensures bits { (b : ℕ) → b < 2 * M → bit_at result b ≡ bit_of octets.now (from + b) }
        ensures no_others { result < 2 ^ (2 * M) }
    {
        let bits = load(&octets[from / 8..]) >> (from % 8);
        bits & ((1 << (2 * M)) - 1)
    }
}

impl<const M: u32> Iq<M> {
    // The bits of a sample that stand from bit `bit` on of the eight octets from `octet` on.
    #[inline]
    fn word_within(octets: &[u8], octet: usize, bit: u32) -> u64
        requires most { M ≤ 20 }
        requires eight { octet + 8 ≤ length octets.now }
        requires within { bit + 2 * M ≤ 64 }
        requires shift { bit < 64 }
        ensures bits { (b : ℕ) → b < 2 * M → bit_at result b ≡ bit_of octets.now (8 * octet + bit + b) }
        ensures no_others { result < 2 ^ (2 * M) }
    {
        let bits = load_whole(&octets[octet..]) >> bit;
        bits & ((1 << (2 * M)) - 1)
    }

    // The sample whose bits stand from bit `bit` on of the eight octets from `octet` on.
    #[inline]
    pub(crate) fn read_within(octets: &[u8], octet: usize, bit: u32) -> RawIq
        requires least { 4 ≤ M }
        requires most { M ≤ 20 }
        requires eight { octet + 8 ≤ length octets.now }
        requires within { bit + 2 * M ≤ 64 }
        ensures { result ≡ sample_at M octets.now (8 * octet + bit) }
    {
        Self::deinterleave(Self::word_within(octets, octet, bit)).wide()
    }
}

impl<const M: u32> SampleWord for Iq<M> {
    ghost use Rattle.sample_bits.specs.declared.iq.RawIq.{RawIq as Raw};

    ghost sample = { λ (s : Raw). s };

    #[inline]
    fn word(&self, m: u32) -> u64 {
        self.wide().word(m)
    }
}

/// What has the bits of a sample.
pub trait SampleWord {
    ghost use Rattle.sample_bits.specs.declared.iq.RawIq.{RawIq as Raw};

    ghost sample: { Self → Raw };

    /// The 2·`m` lowest bits of the sample as a number: the bits of I and Q take turns from the lowest on, I first (CPRI
    /// Specification V7.0, section 4.2.7.2).
    fn word(&self, m: u32) -> u64
        requires least { 4 ≤ m }
        requires most { m ≤ 20 }
        ensures bits { (k : ℕ) → k < 2 * m → bit_at result k ≡ sample_bit (sample self.now) k }
        ensures no_others { result < 2 ^ (2 * m) };
}

impl SampleWord for RawIq {
    ghost use Rattle.sample_bits.specs.declared.iq.RawIq.{RawIq as Raw};

    ghost sample = { λ (s : Raw). s };

    #[inline]
    fn word(&self, m: u32) -> u64 {
        weave(low_bits(self.i, m), low_bits(self.q, m), m)
    }
}

// The value has `width` bits.
fn fits(value: i32, width: u32) -> bool
    requires least { 1 ≤ width }
    requires most { width ≤ 31 }
    ensures { IsTrue result ↔ FitsBits width value }
{
    let limit = 1_i32 << (width - 1);
    -limit <= value && value < limit
}

// The lowest bits of a value, as a number.
#[inline]
fn low_bits(value: i32, width: u32) -> u64
    requires { width ≤ 31 }
    ensures bits { (j : ℕ) → j < width → bit_at result j ≡ int_bit value j }
    ensures no_others { result < 2 ^ width }
{
    u64::from(value.cast_unsigned()) & ((1 << width) - 1)
}

// The value of `width` bits in two's complement.
#[inline]
fn signed(bits: u64, width: u32) -> i32
    requires least { 1 ≤ width }
    requires most { width ≤ 30 }
    requires within { bits < 2 ^ width }
    ensures within { FitsBits width result }
    ensures bits { (j : ℕ) → j < width → int_bit result j ≡ bit_at bits j }
{
    let half = 1 << (width - 1);
    let raised = (bits + half) & ((1 << width) - 1);
    raised as i32 - half as i32
}
