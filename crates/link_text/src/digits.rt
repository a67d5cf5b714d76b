// Octets as hexadecimal digits.
ghost use Rattle.std.specs.Prelude.{◌≡◌, ℕ, List, ◌+◌, ◌*◌, ◌/◌, ◌%◌, ◌<◌, ◌≤◌, ◌↔◌, [], ◌∷◌, ◌++◌, slice_index, take, drop, length, Some, None, IsSome, IfSome, IfNone, IsTrue, Ok};
ghost use Rattle.std.specs.List.{AllPass};
ghost use Rattle.arrayvec.specs.ArrayVec.{array_vec_len};
ghost use Rattle.hex.specs.Hex.{decode_of, is_hex_digit, encode_lower, lower_digits, IsBytes};
ghost use Rattle.link_text.specs.Hexadecimal.{spelled_octets};

use crate::lanes;
use arrayvec::ArrayVec;

const DIGITS: [u8; 16] = *b"0123456789abcdef";

// Puts the octets that the digits of a text spell, and says whether it has digits alone.
fn decode(text: &[u8], out: &mut [u8]) -> bool
    requires { length text.now ≡ 2 * length out.old }
    ensures digits { IsTrue result ↔ AllPass is_hex_digit text.now }
    ensures value { IsTrue result → decode_of text.now ≡ Ok out.new }
    ensures len { length out.new ≡ length out.old }
{
    if out.len() < lanes::OCTETS {
        return hex::decode_to_slice(text, out).is_ok();
    }
    lanes::decode(text, out)
}

/// Puts the octets that a text of hexadecimal digits spells to the front of `out`, and says how many they are. None
/// where the text is empty or of an odd length, or has an octet that is no digit; half its length of `out` is then open.
pub fn octets(text: &[u8], out: &mut [u8]) -> Option<usize>
    requires { length text.now / 2 ≤ length out.old }
    ensures found { IsSome result ↔ ((0 < length text.now) × (length text.now % 2 ≡ 0) × AllPass is_hex_digit text.now) }
    ensures count { IfSome result (λ n. n ≡ length text.now / 2) }
    ensures value { IfSome result (λ n. spelled_octets text.now ≡ Some (take n out.new)) }
    ensures none { IfNone result (spelled_octets text.now ≡ None) }
    ensures others { drop (length text.now / 2) out.new ≡ drop (length text.now / 2) out.old }
{
    let half = text.len() / 2;
    if text.is_empty() || text.len() % 2 != 0 {
        return None;
    }
    decode(text, &mut out[..half]).then_some(half)
}

/// Puts the hexadecimal digits of octets, letters in lower case.
pub(crate) fn encode(octets: &[u8], out: &mut [u8])
    requires { length out.old ≡ 2 * length octets.now }
    ensures { out.new ≡ encode_lower octets.now }
{
    if octets.len() < lanes::OCTETS {
        let _ = hex::encode_to_slice(octets, out);
    } else {
        lanes::encode(octets, out);
    }
}

// Appends the digit of a number below 16.
#[inline(always)]
fn put_digit(out: &mut ArrayVec<u8, 4096>, value: u8)
    requires room { array_vec_len out.old < 4096 }
    requires digit { value < 16 }
    ensures { out.new.items ≡ out.old.items ++ slice_index lower_digits value ∷ [] }
{
    out.push(DIGITS[usize::from(value)]);
}

/// Appends the hexadecimal digits of octets, letters in lower case.
pub fn put_hex(out: &mut ArrayVec<u8, 4096>, octets: &[u8])
    requires { array_vec_len out.old + 2 * length octets.now ≤ 4096 }
    ensures text { out.new.items ≡ out.old.items ++ encode_lower octets.now }
    ensures len { array_vec_len out.new ≡ array_vec_len out.old + 2 * length octets.now }
{
    for octet in octets {
        put_digit(out, *octet / 16);
        put_digit(out, *octet % 16);
    }
}

/// What was written as digits is read back.
pub fn digits_are_read_back()
    ensures { (octets : List ℕ) → IsBytes octets → 0 < length octets → spelled_octets (encode_lower octets) ≡ Some octets }
{}
