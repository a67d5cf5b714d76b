//! What the line carries: characters, the symbols that spell them, and the running disparity.

ghost use Rattle.std.specs.Prelude.{◌<◌};

/// The running disparity of IEEE 802.3 clause 36.2.4.4, before or after a symbol.
#[derive(Clone, Copy, Debug, PartialEq, Eq, Hash)]
pub enum Rd {
    /// Negative, as at the start of a line.
    Minus,
    /// Positive.
    Plus,
}

/// A character of a CPRI line: a data octet, or the comma K28.5, which begins a hyperframe.
/// In octets the comma stands as BCh.
#[derive(Clone, Copy, Debug, PartialEq, Eq, Hash)]
pub enum Char {
    Octet(u8),
    Comma,
}

/// The ten bits a b c d e i f g h j of a code group, bit a first on the line and lowest in `bits`.
#[derive(Clone, Copy, Debug, PartialEq, Eq, Hash)]
pub struct Symbol {
    pub bits: u16,
    pub ghost ten_bits: { bits < 1024 },
}
