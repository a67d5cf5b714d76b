// Basic frames as symbols of the line.
ghost use Rattle.std.specs.Prelude.{◌≡◌, ◌+◌, ◌*◌, ◌%◌, ◌≤◌, ◌<◌, length, take, drop, get_or};
ghost use Rattle.line_code.specs.declared.characters.Char.TheVariants.{Comma};
ghost use Rattle.line_code.specs.Line.{disparity_after_all, frame_characters, symbols_of};
ghost use Rattle.line_code.specs.Packed.{symbols_in};

use line_code::{Char, Rd, encode, five_octets};

/// Writes the symbols that spell the characters of frame n, from the disparity `rd` on, four in five octets, and says the
/// disparity after them.
pub fn spell(octets: &[u8], n: u64, rd: Rd, out: &mut [u8]) -> Rd
    requires groups { length octets.now % 4 ≡ 0 }
    requires room { 4 * length out.old ≡ 5 * length octets.now }
    ensures symbols { symbols_in out.new ≡ symbols_of rd (frame_characters n octets.now) }
    ensures disparity { result ≡ disparity_after_all rd (frame_characters n octets.now) }
{
    let mut disparity = rd;
    for group in 0..octets.len() / 4 {
        let characters = characters_at(octets, n, 4 * group);
        let (five, next) = spell_four(characters, disparity);
        out[5 * group..5 * group + 5].copy_from_slice(&five);
        disparity = next;
    }
    disparity
}

// The four characters of frame n from an octet on.
#[inline]
fn characters_at(octets: &[u8], n: u64, at: usize) -> [Char; 4]
    requires { at + 4 ≤ length octets.now }
    ensures { result ≡ take 4 (drop at (frame_characters n octets.now)) }
{
    [
        character_at(octets, n, at),
        Char::Octet(octets[at + 1]),
        Char::Octet(octets[at + 2]),
        Char::Octet(octets[at + 3]),
    ]
}

// The character of an octet of frame n, which is the comma for the first of a hyperframe.
#[inline]
fn character_at(octets: &[u8], n: u64, at: usize) -> Char
    requires { at < length octets.now }
    ensures { result ≡ get_or (frame_characters n octets.now) at Comma }
{
    if at == 0 && n % 256 == 0 {
        Char::Comma
    } else {
        Char::Octet(octets[at])
    }
}

// The octets of the symbols that spell four characters, and the disparity after them.
#[inline]
fn spell_four(characters: [Char; 4], rd: Rd) -> ([u8; 5], Rd)
    ensures symbols { symbols_in result.0 ≡ symbols_of rd characters }
    ensures disparity { result.1 ≡ disparity_after_all rd characters }
{
    let [first, second, third, fourth] = characters;
    let (first, rd) = encode(rd, first);
    let (second, rd) = encode(rd, second);
    let (third, rd) = encode(rd, third);
    let (fourth, rd) = encode(rd, fourth);
    (five_octets([first, second, third, fourth]), rd)
}
