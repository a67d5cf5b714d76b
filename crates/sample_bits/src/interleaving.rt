// Two halves woven into one word, bit by bit in turn, and taken apart again.
ghost use Rattle.std.specs.Prelude.{◌≡◌, ℕ, ◌+◌, ◌*◌, ◌^◌, ◌<◌, ◌≤◌, IsTrue};
ghost use Rattle.std.specs.Int.{bit_at};
ghost use Rattle.sample_bits.specs.Spread.{IsSpread, EndBelow32, is_mask};

// Bit 2j of the word is bit j of `even`, and bit 2j + 1 is bit j of `odd`. Halves of at most 16 bits are spread at once.
#[inline]
pub fn weave(even: u64, odd: u64, width: u32) -> u64
    requires width { width ≤ 32 }
    requires even_half { even < 2 ^ width }
    requires odd_half { odd < 2 ^ width }
    ensures at_even { (j : ℕ) → bit_at result (2 * j) ≡ bit_at even j }
    ensures at_odd { (j : ℕ) → bit_at result (2 * j + 1) ≡ bit_at odd j }
{
    if width <= 16 {
        weave_short(even, odd)
    } else {
        weave_long(even, odd)
    }
}

#[inline]
fn weave_long(even: u64, odd: u64) -> u64
    requires even_half { even < 2 ^ 32 }
    requires odd_half { odd < 2 ^ 32 }
    ensures at_even { (j : ℕ) → bit_at result (2 * j) ≡ bit_at even j }
    ensures at_odd { (j : ℕ) → bit_at result (2 * j + 1) ≡ bit_at odd j }
{
    spread(even) | spread(odd) << 1
}

#[inline]
fn weave_short(even: u64, odd: u64) -> u64
    requires even_half { even < 2 ^ 16 }
    requires odd_half { odd < 2 ^ 16 }
    ensures at_even { (j : ℕ) → bit_at result (2 * j) ≡ bit_at even j }
    ensures at_odd { (j : ℕ) → bit_at result (2 * j + 1) ≡ bit_at odd j }
{
    let both = spread_sixteens(even | odd << 32);
    (both | both >> 31) & 0xffff_ffff
}

// The bits 0, 2, 4 .. and the bits 1, 3, 5 .. of a word of twice so many bits. Halves of at most 16 bits are gathered at
// once.
#[inline]
pub fn unweave(word: u64, width: u32) -> (u64, u64)
    requires width { width ≤ 32 }
    requires bits { word < 2 ^ (2 * width) }
    ensures even { (j : ℕ) → bit_at result.0 j ≡ bit_at word (2 * j) }
    ensures odd { (j : ℕ) → bit_at result.1 j ≡ bit_at word (2 * j + 1) }
{
    if width <= 16 {
        let both = gather(word | word << 31);
        (both & 0xffff, both >> 16)
    } else {
        (gather(word), gather(word >> 1))
    }
}

// The bits 0, 2, 4 .. of the word.
#[inline]
fn gather(word: u64) -> u64
    ensures { (j : ℕ) → bit_at result j ≡ bit_at word (2 * j) }
{
    let ones = word & 0x5555_5555_5555_5555;
    let pairs = join_runs(ones, 1, 0x3333_3333_3333_3333);
    let fours = join_runs(pairs, 2, 0x0f0f_0f0f_0f0f_0f0f);
    let octets = join_runs(fours, 4, 0x00ff_00ff_00ff_00ff);
    let sixteens = join_runs(octets, 8, 0x0000_ffff_0000_ffff);
    join_runs(sixteens, 16, 0x0000_0000_ffff_ffff)
}

// Bit j of the half goes to bit 2j.
#[inline]
fn spread(half: u64) -> u64
    requires { half < 2 ^ 32 }
    ensures at_even { (j : ℕ) → bit_at result (2 * j) ≡ bit_at half j }
    ensures at_odd { (j : ℕ) → bit_at result (2 * j + 1) ≡ 0 }
{
    spread_sixteens(part_runs(half, 16, 0x0000_ffff_0000_ffff))
}

// The same for a half whose bits stand in runs of 16 already.
#[inline]
fn spread_sixteens(sixteens: u64) -> u64
    ensures { (bits : ℕ → ℕ) → EndBelow32 bits → IsSpread 16 sixteens bits → IsSpread 1 result bits }
{
    let octets = part_runs(sixteens, 8, 0x00ff_00ff_00ff_00ff);
    let fours = part_runs(octets, 4, 0x0f0f_0f0f_0f0f_0f0f);
    let pairs = part_runs(fours, 2, 0x3333_3333_3333_3333);
    part_runs(pairs, 1, 0x5555_5555_5555_5555)
}

// Each run of 2·width bits becomes two runs of `width` bits.
#[inline]
fn part_runs(x: u64, width: u32, mask: u64) -> u64
    requires nonzero { 0 < width }
    requires narrow { width < 64 }
    requires mask { IsTrue (is_mask width mask) }
    ensures { (bits : ℕ → ℕ) → EndBelow32 bits → IsSpread (2 * width) x bits
        → IsSpread width result bits }
{
    (x | x << width) & mask
}

// Two runs of `width` bits each become one run of 2·width bits.
#[inline]
fn join_runs(x: u64, width: u32, mask: u64) -> u64
    requires nonzero { 0 < width }
    requires narrow { width < 64 }
    requires mask { IsTrue (is_mask (2 * width) mask) }
    ensures { (bits : ℕ → ℕ) → EndBelow32 bits → IsSpread width x bits
        → IsSpread (2 * width) result bits }
{
    (x | x >> width) & mask
}
