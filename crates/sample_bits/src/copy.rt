// Bits copied from one octet list to another, by words of 64 bits.
ghost use Rattle.std.specs.Prelude.{◌≡◌, ℕ, ◌+◌, ◌-◌, ◌*◌, ◌/◌, ◌%◌, ◌^◌, ◌<◌, ◌≤◌, length};
ghost use Rattle.std.specs.Int.{bit_at};
ghost use Rattle.link_base.specs.Bits.{bit_of};
ghost use Rattle.sample_bits.specs.Copied.{CopiesBits};

use crate::words::{load, replaced, store};

// A bit's place: bit `bit` of octet `octet`.
#[derive(Clone, Copy)]
struct Place {
    octet: usize,
    bit: u32,
    ghost within_octet: { bit < 8 },
}

impl Place {
    fn of(index: usize) -> Self
        ensures { 8 * result.octet + result.bit ≡ index }
    {
        Place {
            octet: index / 8,
            bit: (index % 8) as u32,
        }
    }

    // The place so many bits on.
    fn after(self, count: usize) -> Self
        requires { self.octet + count < 2 ^ 64 - 8 }
        ensures { 8 * result.octet + result.bit ≡ 8 * self.octet + self.bit + count }
    {
        let bit = self.bit as usize + count;
        Place {
            octet: self.octet + bit / 8,
            bit: (bit % 8) as u32,
        }
    }
}

/// Copies `count` bits: bit `from` of `src` becomes bit `at` of `dst`, and so on. All other bits stay. Bit 0 of an
/// octet is its lowest.
pub fn copy_bits(src: &[u8], from: usize, dst: &mut [u8], at: usize, count: usize)
    requires source { from + count ≤ 8 * length src.now }
    requires room { at + count ≤ 8 * length dst.old }
    ensures { CopiesBits src.now from dst.old dst.new at count }
{
    if from % 8 == 0 && at % 8 == 0 && count % 8 == 0 {
        copy_octets(src, from / 8, dst, at / 8, count / 8);
    } else {
        copy_pieces(src, from, dst, at, count);
    }
}

// Copies whole octets.
#[inline]
fn copy_octets(src: &[u8], from: usize, dst: &mut [u8], at: usize, count: usize)
    requires source { from + count ≤ length src.now }
    requires room { at + count ≤ length dst.old }
    ensures copied { (j : ℕ) → j < 8 * count → bit_of dst.new (8 * at + j) ≡ bit_of src.now (8 * from + j) }
    ensures before { (k : ℕ) → k < 8 * at → bit_of dst.new k ≡ bit_of dst.old k }
    ensures after { (k : ℕ) → 8 * at + 8 * count ≤ k → bit_of dst.new k ≡ bit_of dst.old k }
{
    dst[at..at + count].copy_from_slice(&src[from..from + count]);
}

// Copies bits in pieces of at most 64.
fn copy_pieces(src: &[u8], from: usize, dst: &mut [u8], at: usize, count: usize)
    requires source { from + count ≤ 8 * length src.now }
    requires room { at + count ≤ 8 * length dst.old }
    ensures { CopiesBits src.now from dst.old dst.new at count }
{
    let mut source = Place::of(from);
    let mut target = Place::of(at);
    let mut left = count;
    while left > 0 {
        let moved = copy_piece(src, source, dst, target, left);
        source = source.after(moved);
        target = target.after(moved);
        left -= moved;
    }
}

// Copies the first of the bits that are left, at most 64, and says how many. After a piece that is not the last, the
// target stands at the start of an octet, so that whole words follow.
fn copy_piece(src: &[u8], source: Place, dst: &mut [u8], target: Place, left: usize) -> usize
    requires some { 0 < left }
    requires source { 8 * source.octet + source.bit + left ≤ 8 * length src.now }
    requires room { 8 * target.octet + target.bit + left ≤ 8 * length dst.old }
    ensures moves { 0 < result }
    ensures within { result ≤ left }
    ensures small { result ≤ 64 }
    ensures copies { CopiesBits src.now (8 * source.octet + source.bit) dst.old dst.new
        (8 * target.octet + target.bit) result }
{
    if target.bit == 0 && left >= 64 {
        let word = word_at(src, source);
        store(dst, target.octet, word);
        64
    } else {
        let count = left.min(56 - target.bit as usize);
        let bits = load(&src[source.octet..]) >> source.bit;
        let old = load(&dst[target.octet..]);
        store(
            dst,
            target.octet,
            replaced(old, bits, target.bit, count as u32),
        );
        count
    }
}

// The 64 bits from a place on.
fn word_at(octets: &[u8], place: Place) -> u64
    requires { 8 * place.octet + place.bit + 64 ≤ 8 * length octets.now }
    ensures { (j : ℕ) → j < 64
        → bit_at result j ≡ bit_of octets.now (8 * place.octet + place.bit + j) }
{
    let low = load(&octets[place.octet..]);
    if place.bit == 0 {
        low
    } else {
        low >> place.bit | u64::from(octets[place.octet + 8]) << (64 - place.bit)
    }
}
