// Hexadecimal digits to octets and octets to digits, many at once: a digit a lane.
ghost use Rattle.std.specs.Prelude.{◌≡◌, ℕ, ◌+◌, ◌*◌, ◌/◌, ◌%◌, ◌<◌, ◌≤◌, ◌↔◌, ◌++◌, IfSome, IsTrue, List, Ok, length, map, slice_index};
ghost use Rattle.std.specs.List.{AllPass};
ghost use Rattle.hex.specs.Hex.{decode_of, encode_lower, is_hex_digit};
ghost use Rattle.link_text.specs.LineBuffer.{IsFirstFeed};
ghost use Rattle.link_text.specs.Lanes.{value_or_255, pairs_of, octet_at, DigitsBetween, digit_of, digit_at, turns};

use std::simd::prelude::*;

/// How many octets are had at once, from twice as many digits.
pub(crate) const OCTETS: usize = 32;

// The value of each digit, and 255 for an octet that is no digit.
#[inline(always)]
fn values(digits: u8x32) -> u8x32
    ensures { result ≡ map value_or_255 digits }
{
    let number = digits - u8x32::splat(b'0');
    let letter = (digits | u8x32::splat(0x20)) - u8x32::splat(b'a');
    let above_nine = letter
        .simd_lt(u8x32::splat(6))
        .select(letter + u8x32::splat(10), u8x32::splat(255));
    number.simd_lt(u8x32::splat(10)).select(number, above_nine)
}

#[inline(always)]
fn are_digits(values: u8x32) -> bool
    ensures { IsTrue result ↔ ((k : ℕ) → k < 32 → slice_index values k < 16) }
{
    values.simd_ge(u8x32::splat(16)).to_bitmask() == 0
}

// The octets of pairs of values, the first of a pair for the higher half.
#[inline(always)]
fn pairs(first: u8x32, second: u8x32) -> u8x32
    ensures { result ≡ pairs_of (first ++ second) }
{
    let (high, low) = first.deinterleave(second);
    high * u8x32::splat(16) + low
}

// Puts the octets of 64 digits, those from `2 * at` on, and says whether they all are digits.
#[inline(always)]
fn put_octets(text: &[u8], at: usize, out: &mut [u8]) -> bool
    requires source { 2 * at + 64 ≤ length text.now }
    requires room { at + 32 ≤ length out.old }
    ensures digits { IsTrue result ↔ DigitsBetween text.now (2 * at) (2 * at + 64) }
    ensures len { length out.new ≡ length out.old }
    ensures octets { (k : ℕ) → at ≤ k → k < at + 32 → slice_index out.new k ≡ octet_at text.now k }
    ensures before { (k : ℕ) → k < at → slice_index out.new k ≡ slice_index out.old k }
{
    let first = values(u8x32::from_slice(&text[2 * at..]));
    let second = values(u8x32::from_slice(&text[2 * at + 32..]));
    pairs(first, second).copy_to_slice(&mut out[at..]);
    are_digits(first) & are_digits(second)
}

/// Puts the octets that the digits of a text spell, and says whether it has digits alone.
pub(crate) fn decode(text: &[u8], out: &mut [u8]) -> bool
    requires some { OCTETS ≤ length out.old }
    requires room { length text.now ≡ 2 * length out.old }
    ensures digits { IsTrue result ↔ AllPass is_hex_digit text.now }
    ensures value { IsTrue result → decode_of text.now ≡ Ok out.new }
    ensures len { length out.new ≡ length out.old }
{
    for step in 0..(out.len() - 1) / OCTETS {
        if !put_octets(text, OCTETS * step, out) {
            return false;
        }
    }
    // The last octets are put where they end with the text: some of them a second time.
    put_octets(text, out.len() - OCTETS, out)
}

// The value of each octet's first digit.
#[inline(always)]
fn high_values(octets: u8x32) -> u8x32
    ensures { result ≡ map (λ octet. octet / 16) octets }
{
    octets / u8x32::splat(16)
}

// The value of each octet's second digit.
#[inline(always)]
fn low_values(octets: u8x32) -> u8x32
    ensures { result ≡ map (λ octet. octet % 16) octets }
{
    octets % u8x32::splat(16)
}

// The digit of each value.
#[inline(always)]
fn digits(values: u8x32) -> u8x32
    ensures { result ≡ map digit_of values }
{
    values.simd_lt(u8x32::splat(10)).select(
        values + u8x32::splat(b'0'),
        values + u8x32::splat(b'a' - 10),
    )
}

// A lane of the one and a lane of the other in turn.
#[inline(always)]
fn woven(first: u8x32, second: u8x32) -> (u8x32, u8x32)
    ensures front { result.0 ≡ turns (first ++ second) 0 }
    ensures back { result.1 ≡ turns (first ++ second) 32 }
{
    first.interleave(second)
}

// Puts the digits of 32 octets, those from `at` on.
#[inline(always)]
fn put_digits(octets: &[u8], at: usize, out: &mut [u8])
    requires source { at + 32 ≤ length octets.now }
    requires room { 2 * at + 64 ≤ length out.old }
    ensures len { length out.new ≡ length out.old }
    ensures digits { (k : ℕ) → 2 * at ≤ k → k < 2 * at + 64 → slice_index out.new k ≡ digit_at octets.now k }
    ensures before { (k : ℕ) → k < 2 * at → slice_index out.new k ≡ slice_index out.old k }
{
    let octets = u8x32::from_slice(&octets[at..]);
    let (first, second) = woven(digits(high_values(octets)), digits(low_values(octets)));
    first.copy_to_slice(&mut out[2 * at..]);
    second.copy_to_slice(&mut out[2 * at + 32..]);
}

/// The place of the first line feed among 32 octets and more, if it is among the first 32.
#[inline(always)]
pub(crate) fn near_feed(octets: &[u8]) -> Option<usize>
    requires { 32 ≤ length octets.now }
    ensures { IfSome result (λ place. IsFirstFeed octets.now place × (place < 32)) }
{
    let feeds = u8x32::from_slice(octets)
        .simd_eq(u8x32::splat(b'\n'))
        .to_bitmask();
    let place = feeds.trailing_zeros() as usize;
    if feeds != 0 && place < OCTETS {
        Some(place)
    } else {
        None
    }
}

/// The same among 16 octets and more, if it is among the first 16.
#[inline(always)]
pub(crate) fn nearest_feed(octets: &[u8]) -> Option<usize>
    requires { 16 ≤ length octets.now }
    ensures { IfSome result (λ place. IsFirstFeed octets.now place × (place < 16)) }
{
    let feeds = u8x16::from_slice(octets)
        .simd_eq(u8x16::splat(b'\n'))
        .to_bitmask();
    let place = feeds.trailing_zeros() as usize;
    if feeds != 0 && place < 16 {
        Some(place)
    } else {
        None
    }
}

/// Puts the digits of octets, letters in lower case.
pub(crate) fn encode(octets: &[u8], out: &mut [u8])
    requires some { OCTETS ≤ length octets.now }
    requires room { length out.old ≡ 2 * length octets.now }
    ensures text { out.new ≡ encode_lower octets.now }
{
    for step in 0..(octets.len() - 1) / OCTETS {
        put_digits(octets, OCTETS * step, out);
    }
    // The last digits are put where they end with the text: some of them a second time.
    put_digits(octets, octets.len() - OCTETS, out);
}
