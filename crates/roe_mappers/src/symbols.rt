// Symbols of the line as the octets of basic frames, and those that are bad.
ghost use Rattle.std.specs.Prelude.{◌≡◌, ◌+◌, ◌*◌, ◌/◌, ◌%◌, ◌≤◌, ◌<◌, IsTrue, None, length, map};
ghost use Rattle.line_code.specs.Decoded.{decoded, octet_of};
ghost use Rattle.line_code.specs.Packed.{four_symbols, symbols_in, word_at};
ghost use Rattle.roe_mappers.specs.Symbols.{first_bad_symbol, is_bad_symbol, other_by, others_in};

use line_code::{Char, Symbol, decode, four_symbols, is_octet, octet_of, symbol_at};

// Reads the octets that the symbols of a part spell, the comma as BCh, and says how many symbols spell no octet.
pub(crate) fn read_octets(part: &[u8], octets: &mut [u8]) -> u32
    requires groups { length part.now % 5 ≡ 0 }
    requires room { 5 * length octets.old ≡ 4 * length part.now }
    requires short { length part.now ≤ 1_492 }
    ensures octets { octets.new ≡ map octet_of (symbols_in part.now) }
    ensures others { result ≡ others_in (symbols_in part.now) }
{
    let mut others = 0;
    for group in 0..part.len() / 5 {
        let (four, more) = read_four(part, 5 * group);
        octets[4 * group..4 * group + 4].copy_from_slice(&four);
        others += more;
    }
    others
}

// The octets of the four symbols from an octet on, and how many spell no octet.
#[inline]
fn read_four(part: &[u8], at: usize) -> ([u8; 4], u32)
    requires { at + 5 ≤ length part.now }
    ensures octets { result.0 ≡ map octet_of (four_symbols (word_at part.now at)) }
    ensures others { result.1 ≡ others_in (four_symbols (word_at part.now at)) }
    ensures few { result.1 ≤ 4 }
{
    let [first, second, third, fourth] = four_symbols(part, at);
    let (first, a) = read(first);
    let (second, b) = read(second);
    let (third, c) = read(third);
    let (fourth, d) = read(fourth);
    ([first, second, third, fourth], a + b + c + d)
}

// The octet that a symbol spells, the comma as BCh, and 1 where it spells no octet.
#[inline]
fn read(symbol: Symbol) -> (u8, u32)
    ensures octet { result.0 ≡ octet_of symbol.bits }
    ensures other { result.1 ≡ other_by (decoded symbol.bits) }
    ensures few { result.1 ≤ 1 }
{
    (octet_of(symbol), other(symbol))
}

// 1 for a symbol that spells no octet.
#[inline]
fn other(symbol: Symbol) -> u32
    ensures other { result ≡ other_by (decoded symbol.bits) }
    ensures few { result ≤ 1 }
{
    if is_octet(symbol) { 0 } else { 1 }
}

// The first bad symbol of a part that carries frame n, of whose symbols so many spell no octet.
pub(crate) fn bad_symbol_among(part: &[u8], n: u64, others: u32) -> Option<u32>
    requires some { 5 ≤ length part.now }
    requires short { length part.now ≤ 1_492 }
    requires others { others ≡ others_in (symbols_in part.now) }
    ensures { result ≡ first_bad_symbol n (symbols_in part.now) }
{
    if is_clean(part, n, others) {
        None
    } else {
        first_bad(part, n)
    }
}

// Whether all symbols spell octets but for the comma that is due.
#[inline]
fn is_clean(part: &[u8], n: u64, others: u32) -> bool
    requires some { 5 ≤ length part.now }
    requires others { others ≡ others_in (symbols_in part.now) }
    ensures { IsTrue result → first_bad_symbol n (symbols_in part.now) ≡ None }
{
    if n % 256 == 0 {
        others == 1 && !is_bad(n, 0, symbol_at(part, 0))
    } else {
        others == 0
    }
}

// The first bad symbol, by each symbol in turn.
#[cold]
fn first_bad(part: &[u8], n: u64) -> Option<u32>
    requires { length part.now ≤ 1_492 }
    ensures { result ≡ first_bad_symbol n (symbols_in part.now) }
{
    for place in 0..4 * (part.len() / 5) {
        if is_bad(n, place, symbol_at(part, place)) {
            return Some(place as u32);
        }
    }
    None
}

// Whether a symbol of frame n is bad in its place.
#[inline]
fn is_bad(n: u64, place: usize, sym: Symbol) -> bool
    ensures { result ≡ is_bad_symbol n place sym.bits }
{
    let comma_is_due = place == 0 && n % 256 == 0;
    match decode(sym) {
        None => true,
        Some(Char::Comma) => !comma_is_due,
        Some(Char::Octet(_)) => comma_is_due,
    }
}
