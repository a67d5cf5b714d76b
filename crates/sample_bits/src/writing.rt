// Samples written one after another into an octet list, by words of 64 bits.
ghost use Rattle.std.specs.Prelude.{◌≡◌, ℕ, ◌+◌, ◌-◌, ◌*◌, ◌/◌, ◌%◌, ◌^◌, ◌<◌, ◌≤◌, length};
ghost use Rattle.std.specs.Int.{bit_at};
ghost use Rattle.link_base.specs.Bits.{bit_of};
ghost use Rattle.sample_bits.specs.Blocks.{bit_of_item};
ghost use Rattle.sample_bits.specs.Filled.{IsFilled};
ghost use Rattle.sample_bits.specs.Samples.{sample_bit};

use crate::iq::SampleWord;
use crate::words::{followed, load, replaced, store, store_whole};

// Bits that go into an octet list from octet `octet` on, and are written when there are 64 of them.
#[derive(Clone, Copy)]
struct Pending {
    octet: usize,
    bits: u64,
    count: u32,
    ghost few: { count < 64 },
    ghost no_others: { bits < 2 ^ count },
}

impl Pending {
    // None but the bits of the octet in which bit `at` stands that come before it.
    #[inline]
    fn begin(octets: &[u8], at: usize) -> Self
        requires { at < 8 * length octets.now }
        ensures place { 8 * result.octet + result.count ≡ at }
        ensures filled { IsFilled (bit_of octets.now) octets.now result.octet result.bits result.count }
    {
        let octet = at / 8;
        let count = (at % 8) as u32;
        Pending {
            octet,
            bits: u64::from(octets[octet]) & ((1 << count) - 1),
            count,
        }
    }

    // Takes the lowest `width` bits of a word, which has no others.
    #[inline]
    fn push(self, octets: &mut [u8], word: u64, width: u32) -> Self
        requires narrow { width < 64 }
        requires no_others { word < 2 ^ width }
        requires room { 8 * self.octet + self.count + width ≤ 8 * length octets.old }
        ensures place { 8 * result.octet + result.count ≡ 8 * self.octet + self.count + width }
        ensures filled { (bits : ℕ → ℕ)
            → IsFilled bits octets.old self.octet self.bits self.count
            → ((j : ℕ) → j < width → bit_at word j ≡ bits (8 * self.octet + self.count + j))
            → IsFilled bits octets.new result.octet result.bits result.count }
        ensures after { (k : ℕ) → 8 * result.octet + result.count ≤ k
            → bit_of octets.new k ≡ bit_of octets.old k }
    {
        let bits = followed(self.bits, self.count, word);
        let count = self.count + width;
        if count < 64 {
            return Pending {
                octet: self.octet,
                bits,
                count,
            };
        }
        store_whole(octets, self.octet, bits);
        Pending {
            octet: self.octet + 8,
            bits: word >> (64 - self.count),
            count: count - 64,
        }
    }

    // Writes the bits that are left.
    #[inline]
    fn flush(self, octets: &mut [u8])
        requires { 8 * self.octet + self.count ≤ 8 * length octets.old }
        ensures filled { (bits : ℕ → ℕ)
            → IsFilled bits octets.old self.octet self.bits self.count
            → (k : ℕ) → k < 8 * self.octet + self.count → bit_of octets.new k ≡ bits k }
        ensures after { (k : ℕ) → 8 * self.octet + self.count ≤ k
            → bit_of octets.new k ≡ bit_of octets.old k }
    {
        let old = load(&octets[self.octet..]);
        let word = replaced(old, self.bits, 0, self.count);
        store(octets, self.octet, word);
    }
}

/// Writes samples of I and Q in `m` bits each one after another from bit `at` of the octets on. All other bits stay.
#[inline]
pub fn write_run<T: SampleWord>(samples: &[T], m: u32, octets: &mut [u8], at: usize)
    requires least { 4 ≤ m }
    requires most { m ≤ 20 }
    requires some { 0 < length samples.now }
    requires room { at + 2 * m * length samples.now ≤ 8 * length octets.old }
    ensures put { (r b : ℕ) → r < length samples.now → b < 2 * m
        → bit_of octets.new (at + 2 * m * r + b) ≡ bit_of_item T.sample samples.now r b }
    ensures before { (k : ℕ) → k < at → bit_of octets.new k ≡ bit_of octets.old k }
    ensures after { (k : ℕ) → at + 2 * m * length samples.now ≤ k
        → bit_of octets.new k ≡ bit_of octets.old k }
{
    // Two words of samples fit into one up to this width.
    let pairs = if m <= 15 { samples.len() / 2 } else { 0 };
    let begun = Pending::begin(octets, at);
    let paired = push_pairs(samples, m, pairs, octets, begun);
    push_singles(samples, m, 2 * pairs, octets, paired).flush(octets);
}

// Takes the first samples, two at a time.
#[inline]
fn push_pairs<T: SampleWord>(
    samples: &[T],
    m: u32,
    pairs: usize,
    octets: &mut [u8],
    begun: Pending,
) -> Pending
    requires least { 4 ≤ m }
    requires few { 0 < pairs → m ≤ 15 }
    requires within { 2 * pairs ≤ length samples.now }
    requires room { 8 * begun.octet + begun.count + 2 * m * (2 * pairs) ≤ 8 * length octets.old }
    ensures place { 8 * result.octet + result.count ≡ 8 * begun.octet + begun.count + 2 * m * (2 * pairs) }
    ensures filled { (bits : ℕ → ℕ)
        → IsFilled bits octets.old begun.octet begun.bits begun.count
        → ((r b : ℕ) → r < 2 * pairs → b < 2 * m → bit_of_item T.sample samples.now r b
        ≡ bits (8 * begun.octet + begun.count + 2 * m * r + b))
        → IsFilled bits octets.new result.octet result.bits result.count }
    ensures after { (k : ℕ) → 8 * result.octet + result.count ≤ k
        → bit_of octets.new k ≡ bit_of octets.old k }
{
    let mut pending = begun;
    for pair in 0..pairs {
        let word = pair_word(&samples[2 * pair], &samples[2 * pair + 1], m);
        pending = pending.push(octets, word, 4 * m);
    }
    pending
}

// Takes the samples from sample `first` on.
#[inline]
fn push_singles<T: SampleWord>(
    samples: &[T],
    m: u32,
    first: usize,
    octets: &mut [u8],
    begun: Pending,
) -> Pending
    requires least { 4 ≤ m }
    requires most { m ≤ 20 }
    requires within { first ≤ length samples.now }
    requires room { 8 * begun.octet + begun.count + 2 * m * (length samples.now - first) ≤ 8 * length octets.old }
    ensures place { 8 * result.octet + result.count
        ≡ 8 * begun.octet + begun.count + 2 * m * (length samples.now - first) }
    ensures filled { (bits : ℕ → ℕ)
        → IsFilled bits octets.old begun.octet begun.bits begun.count
        → ((i b : ℕ) → first + i < length samples.now → b < 2 * m
        → bit_of_item T.sample samples.now (first + i) b
        ≡ bits (8 * begun.octet + begun.count + 2 * m * i + b))
        → IsFilled bits octets.new result.octet result.bits result.count }
    ensures after { (k : ℕ) → 8 * result.octet + result.count ≤ k
        → bit_of octets.new k ≡ bit_of octets.old k }
{
    let mut pending = begun;
    for r in first..samples.len() {
        pending = pending.push(octets, samples[r].word(m), 2 * m);
    }
    pending
}

// The bits of two samples as one number, those of the second behind those of the first.
#[inline]
fn pair_word<T: SampleWord>(first: &T, second: &T, m: u32) -> u64
    requires least { 4 ≤ m }
    requires most { m ≤ 15 }
    ensures first { (b : ℕ) → b < 2 * m → bit_at result b ≡ sample_bit (T.sample first.now) b }
    ensures second { (b : ℕ) → b < 2 * m
        → bit_at result (2 * m + b) ≡ sample_bit (T.sample second.now) b }
    ensures no_others { result < 2 ^ (4 * m) }
{
    followed(first.word(m), 2 * m, second.word(m))
}
