//! The code at published code groups. Symbols are written with bit a lowest, so that the bits a to j of
//! the standard's tables are read from the right.

use line_code::{
    Char, Rd, Symbol, check, decode, encode, five_octets, four_symbols, is_comma, octet_of,
    rd_after,
};
use std::process::Abort;
use std::test::Fail;

/// K28.5 at negative disparity: 001111 1010.
const COMMA: Symbol = Symbol {
    bits: 0b0101_111100,
};

/// 001111 1001, which no disparity spells.
const NO_CODE_GROUP: Symbol = Symbol {
    bits: 0b1001_111100,
};

/// Compares what a symbol spells whatever the disparity: a character, and its octet.
fn compare_character(rt: &impl Abort, sym: Symbol, ch: Char, octet: u8) {
    assert_eq!(rt; decode(sym), Some(ch));
    assert_eq!(rt; is_comma(sym), ch == Char::Comma);
    assert_eq!(rt; octet_of(sym), octet);
}

#[test]
fn encode_spells_published_code_groups(rt: HostRuntime) -> Result<(), Fail> {
    let table = [
        // K28.5 is 001111 1010 and turns the disparity.
        (Rd::Minus, Char::Comma, 0b0101_111100, Rd::Plus, 0xbc),
        // D16.2 is 100100 0101 and turns it back.
        (Rd::Plus, Char::Octet(0x50), 0b1010_001001, Rd::Minus, 0x50),
        // D17.7 takes the alternate code: 100011 0111.
        (Rd::Minus, Char::Octet(0xf1), 0b1110_110001, Rd::Plus, 0xf1),
    ];
    for (rd, ch, bits, after, octet) in table {
        let (sym, next) = encode(rd, ch);
        assert_eq!(rt; (sym.bits, next), (bits, after));
        assert_eq!(rt; check(rd, sym), Some((ch, after)));
        compare_character(&rt, sym, ch, octet);
    }
    Ok(())
}

#[test]
fn a_symbol_that_nothing_spells_is_refused(rt: HostRuntime) -> Result<(), Fail> {
    assert_eq!(rt; decode(NO_CODE_GROUP), None);
    assert_eq!(rt; octet_of(NO_CODE_GROUP), 0);
    assert_eq!(rt; check(Rd::Minus, NO_CODE_GROUP), None);
    assert_eq!(rt; check(Rd::Plus, NO_CODE_GROUP), None);
    // The comma of the other disparity is a character, and a code violation here.
    assert_eq!(rt; check(Rd::Plus, COMMA), None);
    assert_eq!(rt; decode(COMMA), Some(Char::Comma));
    Ok(())
}

#[test]
fn the_disparity_after_four_five_and_six_ones(rt: HostRuntime) -> Result<(), Fail> {
    for rd in [Rd::Minus, Rd::Plus] {
        assert_eq!(rt;
            rd_after(
                rd,
                Symbol {
                    bits: 0b00_0000_1111
                }
            ),
            Rd::Minus
        );
        assert_eq!(rt;
            rd_after(
                rd,
                Symbol {
                    bits: 0b00_0001_1111
                }
            ),
            rd
        );
        assert_eq!(rt;
            rd_after(
                rd,
                Symbol {
                    bits: 0b00_0011_1111
                }
            ),
            Rd::Plus
        );
    }
    Ok(())
}

#[test]
fn an_empty_frame_begins_7c_25_9a(rt: HostRuntime) -> Result<(), Fail> {
    let (first, rd) = encode(Rd::Minus, Char::Comma);
    let (second, rd) = encode(rd, Char::Octet(0x50));
    let (third, rd) = encode(rd, Char::Octet(0));
    let (fourth, _) = encode(rd, Char::Octet(0));
    let symbols = [first, second, third, fourth];
    let octets = five_octets(symbols);
    // The lowest octet is packed first.
    assert_eq!(rt; octets[0], 0x7c);
    assert_eq!(rt; octets[1], 0x25);
    assert_eq!(rt; octets[2], 0x9a);
    assert_eq!(rt; four_symbols(&octets, 0), symbols);
    Ok(())
}
