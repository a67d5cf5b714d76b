// Two numbers of a line. Short ones are read from words of eight octets.
ghost use Rattle.std.specs.Prelude.{◌≡◌, ℕ, ℤ, List, nat_le, ◌+◌, ◌^◌, ◌<◌, ◌≤◌, Some, IfSome, IfNone, length, drop, take, pos, neg_ℤ, if◌then◌else◌, FitsSigned};
ghost use Rattle.std.specs.Int.{w32};
ghost use Rattle.std.specs.Simd.Lanes.{number_l};
ghost use Rattle.std.specs.Int.Digits.{number_from_digits};
ghost use Rattle.core.specs.Dec2flt.Digits.{IsEightBytes, IsEightDigits};
ghost use Rattle.core.specs.Slice.Scan.{digits_from, flag_word, little_endian};
ghost use Rattle.std.specs.Float.Numeral.{digits_len};
ghost use Rattle.std.specs.Str.Parse.{digits_value};
ghost use Rattle.link_text.specs.Decimals.{signed_value};
ghost use Rattle.link_text.specs.Pair.{IsFrontPair, IsPair};

use crate::fields::at_first_space;
use crate::lanes::nearest_feed;
use crate::numbers::signed;

/// The octets of a word.
const WORD: usize = 8;

/// What makes a minus sign a zero.
const ZERO_OF_MINUS: u64 = 3;

// The eight octets from a place on, the first of them lowest.
#[inline(always)]
fn word_at(octets: &[u8], from: usize) -> u64
    requires { from + 8 ≤ length octets.now }
    ensures { result ≡ little_endian octets.now from }
{
    u64::from_le_bytes([
        octets[from],
        octets[from + 1],
        octets[from + 2],
        octets[from + 3],
        octets[from + 4],
        octets[from + 5],
        octets[from + 6],
        octets[from + 7],
    ])
}

// The number of this size, below 0 where there is a minus sign.
#[inline(always)]
fn with_sign(minus: bool, size: u32) -> i32
    requires { size < 2 ^ 31 }
    ensures { result ≡ (if minus then neg_ℤ (pos size) else pos size) }
{
    let size = size as i32;
    if minus { -size } else { size }
}

// The high bit of each octet that is 10 or more. No sum carries into the next octet.
#[inline(always)]
fn flags_from_ten(word: u64) -> u64
    ensures { (octet : ℕ → ℕ) → ((k : ℕ) → octet k < 256) → word ≡ digits_from octet 0 8
        → result ≡ flag_word (λ k. nat_le 10 (octet k)) }
{
    ((word & 0x7f7f_7f7f_7f7f_7f7f) + 0x7676_7676_7676_7676 | word) & 0x8080_8080_8080_8080
}

// The number that eight digits write, the first of them lowest.
#[inline(always)]
fn value_of_eight(digits: u64) -> u64
    ensures { (values : List ℕ) → IsEightDigits values → digits ≡ number_l 256 values
        → result ≡ number_from_digits 10 values }
{
    let pairs = digits.wrapping_mul(10).wrapping_add(digits >> 8);
    let first = (pairs & 0x0000_00ff_0000_00ff).wrapping_mul(100 + (1_000_000 << 32));
    let second = ((pairs >> 16) & 0x0000_00ff_0000_00ff).wrapping_mul(1 + (10_000 << 32));
    first.wrapping_add(second) >> 32
}

// How many of the first octets of a word are digits, where fewer than eight are, and the number that they spell.
#[inline(always)]
fn digits_in(word: u64) -> Option<(usize, u64)>
    ensures few { IfSome result (λ digits. digits.0 < 8) }
    ensures small { IfSome result (λ digits. digits.1 < 10 ^ 7) }
    ensures value { IfSome result (λ digits. (octets : List ℕ) → IsEightBytes octets → word ≡ number_l 256 octets
        → (digits.0 ≡ digits_len octets) × (digits.1 ≡ digits_value 10 (take digits.0 octets))) }
{
    let lanes = word ^ 0x3030_3030_3030_3030;
    let others = flags_from_ten(lanes);
    if others == 0 {
        return None;
    }
    let count = others.trailing_zeros() / 8;
    // Two shifts, since a shift by 64 is none.
    Some((
        count as usize,
        value_of_eight(lanes << (56 - 8 * count) << 8),
    ))
}

// The number that the first octets of a word spell, and how many of them do.
#[inline(always)]
fn number_in(word: u64) -> Option<(i32, usize)>
    ensures few { IfSome result (λ found. found.1 < 8) }
    ensures fits { IfSome result (λ found. FitsSigned w32 found.0) }
    ensures value { IfSome result (λ found. (octets : List ℕ) → IsEightBytes octets → word ≡ number_l 256 octets
        → signed_value (take found.1 octets) ≡ Some found.0) }
{
    let minus = word % 256 == u64::from(b'-');
    let sign = u64::from(minus);
    // With a zero for the sign all are digits, and the number is of the same size.
    let (end, size) = digits_in(word.wrapping_add(ZERO_OF_MINUS * sign))?;
    let begin = usize::from(minus);
    if end <= begin {
        return None;
    }
    let first = (word >> (8 * sign)) % 256;
    if first == u64::from(b'0') && begin + end > 1 {
        return None;
    }
    Some((with_sign(minus, size as u32), end))
}

// The two numbers of a line of fewer than eight octets.
fn pair_in_word(line: &[u8]) -> Option<(i32, i32)>
    requires { length line.now < 8 }
    ensures { IfSome result (λ pair. IsPair line.now pair.0 pair.1) }
{
    let mut octets = [0; WORD];
    octets[..line.len()].copy_from_slice(line);
    let word = word_at(&octets, 0);
    let (first, end) = number_in(word)?;
    if end >= line.len() || line[end] != b' ' {
        return None;
    }
    let (second, count) = number_in(word >> (8 * (end + 1)))?;
    if end + 1 + count == line.len() {
        Some((first, second))
    } else {
        None
    }
}

// The two numbers of a line where each has up to seven octets.
#[inline(always)]
fn short_pair(line: &[u8]) -> Option<(i32, i32)>
    ensures { IfSome result (λ pair. IsPair line.now pair.0 pair.1) }
{
    if line.len() < WORD {
        return pair_in_word(line);
    }
    let (first, end) = number_in(word_at(line, 0))?;
    let count = line.len() - end - 1;
    if line[end] != b' ' || count == 0 || count > WORD {
        return None;
    }
    // The line ends with the second number, and so does the last word of it.
    let last = word_at(line, line.len() - WORD) >> (8 * (WORD - count));
    let (second, length) = number_in(last)?;
    if length == count {
        Some((first, second))
    } else {
        None
    }
}

// The two numbers of a line of any length.
fn long_pair(line: &[u8]) -> Option<(i32, i32)>
    ensures some { IfSome result (λ pair. IsPair line.now pair.0 pair.1) }
    ensures none { IfNone result ((i q : ℤ) → IsPair line.now i q → ¬ (FitsSigned w32 i × FitsSigned w32 q)) }
{
    let (first, second) = at_first_space(line)?;
    Some((signed(first)?, signed(second)?))
}

/// The two numbers of a line with one space between them, each a canonical decimal or `-` and one other than `0`. None where
/// the line has no such two, or where one of them is outside of `i32`.
#[inline(always)]
pub fn signed_pair(line: &[u8]) -> Option<(i32, i32)>
    ensures some { IfSome result (λ pair. IsPair line.now pair.0 pair.1) }
    ensures none { IfNone result ((i q : ℤ) → IsPair line.now i q → ¬ (FitsSigned w32 i × FitsSigned w32 q)) }
{
    match short_pair(line) {
        Some(pair) => Some(pair),
        None => long_pair(line),
    }
}

/// Two numbers of a line that stands before others.
#[derive(Clone, Copy, Debug, PartialEq, Eq)]
pub struct FrontPair {
    pub first: i32,
    pub second: i32,
    /// How many octets the line has, without its line feed.
    pub length: usize,
}

/// The two numbers of the first line of some octets, where the line has fewer than 16 octets, and each number up to seven.
#[inline(always)]
pub fn front_pair(octets: &[u8]) -> Option<FrontPair>
    requires { 16 ≤ length octets.now }
    ensures { IfSome result (λ found. IsFrontPair octets.now found.first found.second found.length) }
{
    let length = nearest_feed(octets)?;
    let (first, end) = number_in(word_at(octets, 0))?;
    if octets[end] != b' ' {
        return None;
    }
    let (second, count) = number_in(word_at(octets, end + 1))?;
    if end + 1 + count != length {
        return None;
    }
    Some(FrontPair {
        first,
        second,
        length,
    })
}
