//! From symbols to characters.

ghost use Rattle.std.specs.Prelude.{◌≡◌, ℕ, ◌↔◌, IsNone, Some};
ghost use Rattle.line_code.specs.declared.characters.Char.{Char};
ghost use Rattle.line_code.specs.declared.characters.Rd.{Rd};
ghost use Rattle.line_code.specs.Code.{Spells, IsCheckOf, disparity_by_ones};
ghost use Rattle.line_code.specs.Decoded.{spelled_at, with_next, decoded, octet_of, is_comma, is_octet};

use crate::characters::{Char, Rd, Symbol};
use crate::tables::{
    SPELLED, character_of_entry, disparity_past, is_comma_entry, is_octet_entry, octet_of_entry,
    violations_of,
};

/// The character that a symbol spells at the disparity `rd`, with the disparity after it.
/// It is `None` for a code violation: a symbol that spells nothing at this disparity.
pub fn check(rd: Rd, sym: Symbol) -> Option<(Char, Rd)>
    ensures spelled { IsCheckOf rd sym.bits result }
    ensures none { IsNone result ↔ ((ch : Char) (next : Rd) → ¬ (Spells rd ch sym.bits next)) }
    ensures found { result ≡ with_next rd sym.bits (spelled_at rd sym.bits) }
{
    let entry = SPELLED[sym.bits as usize];
    if violations_of(rd, entry) == 0 {
        Some((character_of_entry(entry), disparity_past(rd, entry)))
    } else {
        None
    }
}

/// The character that a symbol spells at either disparity.
/// It is `None` where neither disparity spells it.
pub fn decode(sym: Symbol) -> Option<Char>
    ensures spelled { (ch : Char)
        → (result ≡ Some ch) ↔ ((rd : Rd) × (next : Rd) × Spells rd ch sym.bits next) }
    ensures none { IsNone result ↔ ((rd : Rd) (ch : Char) (next : Rd) → ¬ (Spells rd ch sym.bits next)) }
    ensures found { result ≡ decoded sym.bits }
{
    let entry = SPELLED[sym.bits as usize];
    if entry / 4 % 4 == 3 {
        None
    } else {
        Some(character_of_entry(entry))
    }
}

/// The character that a symbol spells at either disparity as an octet, the comma as BCh. It is 0 where neither spells the
/// symbol.
#[inline]
pub fn octet_of(sym: Symbol) -> u8
    ensures { result ≡ octet_of sym.bits }
{
    octet_of_entry(SPELLED[sym.bits as usize])
}

/// Whether a symbol is the comma of either disparity.
#[inline]
pub fn is_comma(sym: Symbol) -> bool
    ensures { result ≡ is_comma sym.bits }
{
    is_comma_entry(SPELLED[sym.bits as usize])
}

/// Whether a symbol spells an octet at either disparity. The comma is none.
#[inline]
pub fn is_octet(sym: Symbol) -> bool
    ensures { result ≡ is_octet sym.bits }
{
    is_octet_entry(SPELLED[sym.bits as usize])
}

/// The disparity after a symbol, whether or not it spells a character.
pub fn rd_after(rd: Rd, sym: Symbol) -> Rd
    ensures { result ≡ disparity_by_ones rd sym.bits }
{
    disparity_past(rd, SPELLED[sym.bits as usize])
}
