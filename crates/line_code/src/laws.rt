//! Laws of the code: what holds of every symbol, every list of characters and every run of frames.
//! Each is the contract of a function that does nothing.

ghost use Rattle.std.specs.Prelude.{◌≡◌, ℕ, ◌+◌, ◌*◌, ◌/◌, ◌%◌, ◌<◌, ◌↔◌, ◌++◌, List, map, All, length, slice_index, Option, Some};
ghost use Rattle.std.specs.Int.{bit_at};
ghost use Rattle.link_base.specs.Bits.{bit_of};
ghost use Rattle.line_code.specs.declared.characters.Char.{Char};
ghost use Rattle.line_code.specs.declared.characters.Rd.{Rd};
ghost use Rattle.line_code.specs.declared.characters.Rd.TheVariants.{Minus};
ghost use Rattle.line_code.specs.Code.{IsCharacter, Spells, disparity_by_ones};
ghost use Rattle.line_code.specs.Line.{ChecksAlong, IsFrame, characters_from, line_symbols, symbols_of};
ghost use Rattle.line_code.specs.Packed.{symbols_in};

/// A symbol spells at most one character over both disparities.
pub fn spells_one_character()
    ensures { (rd rd' : Rd) (ch ch' : Char) (bits : ℕ) (next next' : Rd)
        → Spells rd ch bits next → Spells rd' ch' bits next' → ch ≡ ch' }
{}

/// A spelled symbol has ten bits.
pub fn spelled_in_ten_bits()
    ensures { (rd : Rd) (ch : Char) (bits : ℕ) (next : Rd) → Spells rd ch bits next → bits < 1024 }
{}

/// The count of ones of a spelled symbol gives the disparity after it.
pub fn spelled_disparity_by_ones()
    ensures { (rd : Rd) (ch : Char) (bits : ℕ) (next : Rd) → Spells rd ch bits next
        → next ≡ disparity_by_ones rd bits }
{}

/// `check` along the symbols of characters gives back these characters, and is never `None`.
pub fn check_along_characters()
    ensures { (rd : Rd) (chars : List Char) → All IsCharacter chars → (answers : List (Option Char))
        → (ChecksAlong rd (symbols_of rd chars) answers) ↔ (answers ≡ map Some chars) }
{}

/// `check` along the line of a run's frames, from negative disparity on, gives back their characters
/// and is never `None`.
pub fn check_along_frames()
    ensures { (frames : List (List ℕ)) → All IsFrame frames → (answers : List (Option Char))
        → (ChecksAlong Minus (line_symbols frames) answers)
        ↔ (answers ≡ map Some (characters_from 0 frames)) }
{}

/// Bit i of symbol k in octets is bit 10·k + i of the octets, and five octets have four symbols.
pub fn symbols_bit_by_bit()
    ensures count { (octets : List ℕ) → length (symbols_in octets) ≡ 4 * (length octets / 5) }
    ensures bits { (octets : List ℕ) (k i : ℕ) → All (λ octet. octet < 256) octets → k < 4 * (length octets / 5) → i < 10
        → bit_at (slice_index (symbols_in octets) k) i ≡ bit_of octets (10 * k + i) }
{}

/// The symbols of whole groups of five octets and of what follows them are those of the groups and then those of the rest.
pub fn symbols_of_pieces()
    ensures { (groups rest : List ℕ) → length groups % 5 ≡ 0 → symbols_in (groups ++ rest) ≡ symbols_in groups ++ symbols_in rest }
{}
