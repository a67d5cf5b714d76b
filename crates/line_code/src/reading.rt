//! Symbols of a line that are read from octets, one group of four after another.

ghost use Rattle.std.specs.Prelude.{◌≡◌, ◌+◌, ◌*◌, ◌/◌, ◌%◌, ◌^◌, ◌<◌, ◌≤◌, [], ◌∷◌, length, drop, map, slice_index, IfSome};
ghost use Rattle.line_code.specs.Code.{disparity_by_ones};
ghost use Rattle.line_code.specs.Tables.{AreMarkedBy};
ghost use Rattle.line_code.specs.Clean.{IsClean};
ghost use Rattle.line_code.specs.Packed.{word_at, four_symbols, sixteen_symbols, symbols_in};
ghost use Rattle.line_code.specs.Decoded.{spelled_at, is_violation_by, violations_in, disparity_along, octet_of};

use crate::characters::{Rd, Symbol};
use crate::decoder::octet_of;
use crate::marks::MARKS;
use crate::packing::{four_symbols, word_at};
use crate::tables::{SPELLED, disparity_past, number_of, violations_of};

/// The octets that have four symbols.
const GROUP: usize = 5;
/// The octets that have sixteen symbols.
const TWENTY: usize = 20;

/// How far a line is read: the running disparity, and the violations so far.
#[derive(Clone, Copy, Debug, PartialEq, Eq)]
pub struct LineState {
    pub disparity: Rd,
    pub violations: u32,
}

impl LineState {
    /// Takes the lowest ten bits of a word as the next symbol.
    #[inline]
    fn take(self, word: u64) -> LineState
        requires { self.violations < 4294967295 }
        ensures violations { result.violations ≡ self.violations + is_violation_by (spelled_at self.disparity (word % 1024)) }
        ensures disparity { result.disparity ≡ disparity_by_ones self.disparity (word % 1024) }
    {
        let entry = SPELLED[(word % 1024) as usize];
        LineState {
            disparity: disparity_past(self.disparity, entry),
            violations: self.violations + u32::from(violations_of(self.disparity, entry)),
        }
    }

    /// Takes four symbols, one after another.
    #[tactic(auto, unfolding(crate::specs::Decoded::violations_in, crate::specs::Decoded::disparity_along))]
    fn take_four(self, word: u64) -> LineState
        requires { self.violations < 4294967291 }
        ensures violations { result.violations ≡ self.violations + violations_in self.disparity (four_symbols word) }
        ensures disparity { result.disparity ≡ disparity_along self.disparity (four_symbols word) }
        ensures few { result.violations ≤ self.violations + 4 }
    {
        self.take(word)
            .take(word / 1024)
            .take(word / 1_048_576)
            .take(word / 1_073_741_824)
    }

    /// Takes the sixteen symbols of the twenty octets from `at` on, one after another.
    #[cold]
    fn take_each(self, octets: &[u8], at: usize) -> LineState
        requires within { at + 20 ≤ length octets.now }
        requires few { self.violations < 4294967279 }
        ensures violations { result.violations ≡ self.violations + violations_in self.disparity (sixteen_symbols octets.now at) }
        ensures disparity { result.disparity ≡ disparity_along self.disparity (sixteen_symbols octets.now at) }
        ensures few { result.violations ≤ self.violations + 16 }
    {
        self.take_four(word_at(octets, at))
            .take_four(word_at(octets, at + 5))
            .take_four(word_at(octets, at + 10))
            .take_four(word_at(octets, at + 15))
    }

    /// Takes the sixteen symbols of the twenty octets from `at` on: at once, where none of them is a violation.
    #[inline]
    fn take_sixteen(self, octets: &[u8], at: usize) -> LineState
        requires within { at + 20 ≤ length octets.now }
        requires few { self.violations < 4294967279 }
        ensures violations { result.violations ≡ self.violations + violations_in self.disparity (sixteen_symbols octets.now at) }
        ensures disparity { result.disparity ≡ disparity_along self.disparity (sixteen_symbols octets.now at) }
        ensures few { result.violations ≤ self.violations + 16 }
    {
        match clean_after(self.disparity, marks_of_sixteen(octets, at)) {
            Some(disparity) => LineState { disparity, ..self },
            None => self.take_each(octets, at),
        }
    }
}

/// The marks of the symbol in the lowest ten bits of a word.
#[inline]
fn marks_of(word: u64) -> u64
    ensures marks { AreMarkedBy (word % 1024 ∷ []) result }
    ensures few { result ≤ 281479271743489 }
{
    MARKS[(word % 1024) as usize]
}

/// The marks of the four symbols in a word.
#[inline]
fn marks_of_four(word: u64) -> u64
    ensures marks { AreMarkedBy (four_symbols word) result }
    ensures few { result ≤ 15 * 281479271743489 }
{
    let low = marks_of(word) + 2 * marks_of(word / 1024);
    let high = marks_of(word / 1_048_576) + 2 * marks_of(word / 1_073_741_824);
    low + 4 * high
}

/// The eight octets from `at` on as a number. Its lowest forty bits have the symbols of the first five octets, and its highest
/// those of the last five.
#[inline]
fn long_word_at(octets: &[u8], at: usize) -> u64
    requires { at + 8 ≤ length octets.now }
    ensures first { four_symbols result ≡ four_symbols (word_at octets.now at) }
    ensures last { result / 16777216 ≡ word_at octets.now (at + 3) }
{
    u64::from_le_bytes([
        octets[at],
        octets[at + 1],
        octets[at + 2],
        octets[at + 3],
        octets[at + 4],
        octets[at + 5],
        octets[at + 6],
        octets[at + 7],
    ])
}

/// The marks of the sixteen symbols in the twenty octets from `at` on.
#[inline]
fn marks_of_sixteen(octets: &[u8], at: usize) -> u64
    requires { at + 20 ≤ length octets.now }
    ensures { AreMarkedBy (sixteen_symbols octets.now at) result }
{
    let first = marks_of_four(long_word_at(octets, at));
    let second = marks_of_four(long_word_at(octets, at + 5));
    let third = marks_of_four(long_word_at(octets, at + 10));
    let fourth = marks_of_four(long_word_at(octets, at + 12) / 16_777_216);
    first + 16 * second + 256 * (third + 16 * fourth)
}

/// The disparity after sixteen symbols of these marks, where none of them is a violation. A symbol hands on the disparity before
/// it, or another, as a place of a sum hands on its carry: the carries of one addition are the disparities before each symbol.
#[inline]
fn clean_after(disparity: Rd, marks: u64) -> Option<Rd>
    ensures { IfSome result (IsClean disparity marks) }
{
    let stays = marks / 65_536 % 65_536;
    let before = (2 * (marks % 65_536) + stays + number_of(disparity)) ^ stays;
    let at_minus = marks / 4_294_967_296 % 65_536;
    let at_plus = marks / 281_474_976_710_656;
    if at_minus & before != at_minus || at_plus & before != 0 {
        return None;
    }
    if before / 65_536 % 2 == 1 {
        Some(Rd::Plus)
    } else {
        Some(Rd::Minus)
    }
}

/// Reads the symbols in whole twenties of octets, at this disparity before the first.
fn read_sixteens(octets: &[u8], disparity: Rd) -> LineState
    requires { length octets.now < 2 ^ 32 }
    ensures violations { violations_in disparity (symbols_in octets.now)
        ≡ result.violations + violations_in result.disparity (symbols_in (drop (20 * (length octets.now / 20)) octets.now)) }
    ensures disparity { disparity_along disparity (symbols_in octets.now)
        ≡ disparity_along result.disparity (symbols_in (drop (20 * (length octets.now / 20)) octets.now)) }
    ensures few { result.violations ≤ 16 * (length octets.now / 20) }
{
    let mut line = LineState {
        disparity,
        violations: 0,
    };
    for twenty in 0..octets.len() / TWENTY {
        line = line.take_sixteen(octets, TWENTY * twenty);
    }
    line
}

/// Reads the symbols in octets, of which whole groups of five count, at this disparity before the first: the violations among
/// them, and the disparity after them.
pub fn read_symbols(octets: &[u8], disparity: Rd) -> LineState
    requires { length octets.now < 2 ^ 32 }
    ensures violations { result.violations ≡ violations_in disparity (symbols_in octets.now) }
    ensures disparity { result.disparity ≡ disparity_along disparity (symbols_in octets.now) }
    ensures few { result.violations ≤ 4 * (length octets.now / 5) }
{
    let mut line = read_sixteens(octets, disparity);
    for group in 4 * (octets.len() / TWENTY)..octets.len() / GROUP {
        line = line.take_four(word_at(octets, GROUP * group));
    }
    line
}

/// The symbol at a place.
pub fn symbol_at(octets: &[u8], place: usize) -> Symbol
    requires { 5 * (place / 4) + 5 ≤ length octets.now }
    ensures { result.bits ≡ slice_index (symbols_in octets.now) place }
{
    let word = word_at(octets, GROUP * (place / 4));
    let bits = match place % 4 {
        0 => word % 1024,
        1 => word / 1024 % 1024,
        2 => word / 1_048_576 % 1024,
        _ => word / 1_073_741_824 % 1024,
    };
    Symbol { bits: bits as u16 }
}

/// The octets of the four symbols in the five octets from `at` on, each as by `octet_of`.
#[inline]
pub fn four_octets(octets: &[u8], at: usize) -> [u8; 4]
    requires { at + 5 ≤ length octets.now }
    ensures { result ≡ map octet_of (four_symbols (word_at octets.now at)) }
{
    let [first, second, third, fourth] = four_symbols(octets, at);
    [
        octet_of(first),
        octet_of(second),
        octet_of(third),
        octet_of(fourth),
    ]
}
