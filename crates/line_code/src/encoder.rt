//! From characters to symbols.

ghost use Rattle.std.specs.Prelude.{◌≡◌, ℕ};
ghost use Rattle.line_code.specs.declared.characters.Char.TheVariants.{Octet, Comma};
ghost use Rattle.line_code.specs.declared.characters.Rd.{Rd};
ghost use Rattle.line_code.specs.Code.{Spells};

use crate::characters::{Char, Rd, Symbol};
use crate::tables::{COMMA_AT_MINUS, COMMA_AT_PLUS, SYMBOLS, TURNS, number_of, turned};

/// The symbol that spells a character at the disparity `rd`, and the disparity after it.
#[inline]
pub fn encode(rd: Rd, ch: Char) -> (Symbol, Rd)
    ensures spells { Spells rd ch result.0.bits result.1 }
    ensures only { (bits : ℕ) (next : Rd) → Spells rd ch bits next
        → (bits ≡ result.0.bits) × (next ≡ result.1) }
{
    match ch {
        Char::Octet(octet) => encode_octet(rd, octet),
        Char::Comma => encode_comma(rd),
    }
}

// The symbol of an octet. At either disparity it turns the disparity or leaves it, so that what one octet does to it is known
// before the disparity is.
#[inline]
fn encode_octet(rd: Rd, octet: u8) -> (Symbol, Rd)
    ensures { Spells rd (Octet octet) result.0.bits result.1 }
{
    let bits = SYMBOLS[256 * number_of(rd) as usize + octet as usize];
    (Symbol { bits }, turned(rd, TURNS[octet as usize]))
}

// The symbol of the comma, which turns the disparity.
fn encode_comma(rd: Rd) -> (Symbol, Rd)
    ensures { Spells rd Comma result.0.bits result.1 }
{
    let bits = match rd {
        Rd::Minus => COMMA_AT_MINUS,
        Rd::Plus => COMMA_AT_PLUS,
    };
    (Symbol { bits }, turned(rd, true))
}
