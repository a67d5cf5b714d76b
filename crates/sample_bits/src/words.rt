// Words of 64 bits in an octet list, and the bits of a word.
ghost use Rattle.std.specs.Prelude.{◌≡◌, ℕ, ◌+◌, ◌*◌, ◌^◌, ◌<◌, ◌≤◌, length};
ghost use Rattle.std.specs.Int.{bit_at};
ghost use Rattle.link_base.specs.Bits.{bit_of};

// The word with `count` bits from bit `at` on replaced by the lowest bits of `bits`.
#[inline]
pub(crate) fn replaced(word: u64, bits: u64, at: u32, count: u32) -> u64
    requires { at + count < 64 }
    ensures copied { (j : ℕ) → j < count → bit_at result (at + j) ≡ bit_at bits j }
    ensures before { (k : ℕ) → k < at → bit_at result k ≡ bit_at word k }
    ensures after { (k : ℕ) → at + count ≤ k → bit_at result k ≡ bit_at word k }
{
    let mask = ((1 << count) - 1) << at;
    word & !mask | bits << at & mask
}

// The first 64 bits of the octets, with zeros past the end.
#[inline]
pub(crate) fn load(octets: &[u8]) -> u64
    ensures { (j : ℕ) → j < 64 → bit_at result j ≡ bit_of octets.now j }
{
    if octets.len() >= 8 {
        load_whole(octets)
    } else {
        load_end(octets)
    }
}

// The first 64 bits of octets that have so many.
#[inline]
pub(crate) fn load_whole(octets: &[u8]) -> u64
    requires { 8 ≤ length octets.now }
    ensures { (j : ℕ) → j < 64 → bit_at result j ≡ bit_of octets.now j }
{
    let mut word = [0; 8];
    word.copy_from_slice(&octets[..8]);
    u64::from_le_bytes(word)
}

#[cold]
fn load_end(octets: &[u8]) -> u64
    requires { length octets.now < 8 }
    ensures { (j : ℕ) → j < 64 → bit_at result j ≡ bit_of octets.now j }
{
    let mut word = [0; 8];
    word[..octets.len()].copy_from_slice(octets);
    u64::from_le_bytes(word)
}

// The lowest `count` bits of `bits`, which has no others, and behind them the bits of a word.
#[inline]
pub(crate) fn followed(bits: u64, count: u32, word: u64) -> u64
    requires few { count < 64 }
    requires no_others { bits < 2 ^ count }
    ensures first { (j : ℕ) → j < count → bit_at result j ≡ bit_at bits j }
    ensures next { (j : ℕ) → count + j < 64 → bit_at result (count + j) ≡ bit_at word j }
    ensures no_others { (width : ℕ) → word < 2 ^ width → result < 2 ^ (count + width) }
{
    bits | word << count
}

// Writes the 64 bits of a word from octet `at` on.
#[inline]
pub(crate) fn store_whole(octets: &mut [u8], at: usize, word: u64)
    requires { at + 8 ≤ length octets.old }
    ensures written { (j : ℕ) → j < 64 → bit_of octets.new (8 * at + j) ≡ bit_at word j }
    ensures before { (k : ℕ) → k < 8 * at → bit_of octets.new k ≡ bit_of octets.old k }
    ensures after { (k : ℕ) → 8 * at + 64 ≤ k → bit_of octets.new k ≡ bit_of octets.old k }
{
    octets[at..at + 8].copy_from_slice(&word.to_le_bytes());
}

// Writes the bits of a word over the 64 bits from octet `at` on, as far as there are any.
#[inline]
pub(crate) fn store(octets: &mut [u8], at: usize, word: u64)
    requires { at ≤ length octets.old }
    ensures written { (j : ℕ) → j < 64 → 8 * at + j < 8 * length octets.old
        → bit_of octets.new (8 * at + j) ≡ bit_at word j }
    ensures before { (k : ℕ) → k < 8 * at → bit_of octets.new k ≡ bit_of octets.old k }
    ensures after { (k : ℕ) → 8 * at + 64 ≤ k → bit_of octets.new k ≡ bit_of octets.old k }
{
    let bytes = word.to_le_bytes();
    let room = octets.len() - at;
    if room >= 8 {
        octets[at..at + 8].copy_from_slice(&bytes);
    } else {
        octets[at..].copy_from_slice(&bytes[..room]);
    }
}
