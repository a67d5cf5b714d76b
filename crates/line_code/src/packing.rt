//! Symbols in octets: four in five, bit a of the first symbol lowest in the first octet.

ghost use Rattle.std.specs.Prelude.{◌≡◌, ◌+◌, ◌%◌, ◌^◌, ◌<◌, ◌≤◌, length, map};
ghost use Rattle.line_code.specs.declared.characters.Symbol.{Symbol};
ghost use Rattle.line_code.specs.Packed.{word_at, four_symbols, symbols_in};

use crate::characters::Symbol;

/// The number of which the forty bits of the five octets from `at` on are the digits, the first bit lowest.
#[inline]
pub fn word_at(octets: &[u8], at: usize) -> u64
    requires { at + 5 ≤ length octets.now }
    ensures value { result ≡ word_at octets.now at }
    ensures small { result < 2 ^ 40 }
{
    let low = u32::from_le_bytes([octets[at], octets[at + 1], octets[at + 2], octets[at + 3]]);
    u64::from(low) + 4_294_967_296 * u64::from(octets[at + 4])
}

/// The symbol in the lowest ten bits of a word.
#[inline]
fn lowest(word: u64) -> Symbol
    ensures { result.bits ≡ word % 1024 }
{
    Symbol {
        bits: (word % 1024) as u16,
    }
}

/// The four symbols of the five octets from `at` on.
#[inline]
pub fn four_symbols(octets: &[u8], at: usize) -> [Symbol; 4]
    requires { at + 5 ≤ length octets.now }
    ensures { map (λ (sym : Symbol). sym.bits) result ≡ four_symbols (word_at octets.now at) }
{
    let word = word_at(octets, at);
    [
        lowest(word),
        lowest(word / 1024),
        lowest(word / 1_048_576),
        lowest(word / 1_073_741_824),
    ]
}

/// The five octets that have these four symbols.
#[inline]
pub fn five_octets(symbols: [Symbol; 4]) -> [u8; 5]
    ensures { symbols_in result ≡ map (λ (sym : Symbol). sym.bits) symbols }
{
    let [first, second, third, fourth] = symbols;
    let upper = u64::from(third.bits) + 1024 * u64::from(fourth.bits);
    let word = u64::from(first.bits) + 1024 * u64::from(second.bits) + 1_048_576 * upper;
    [
        (word % 256) as u8,
        (word / 256 % 256) as u8,
        (word / 256 / 256 % 256) as u8,
        (word / 256 / 256 / 256 % 256) as u8,
        (word / 256 / 256 / 256 / 256) as u8,
    ]
}
