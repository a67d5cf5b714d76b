//! The 8B/10B code of a CPRI line (IEEE 802.3 clause 36.2.4): octets and the comma as symbols of ten
//! bits, by the running disparity.
#![tactic(auto)]

mod characters;
mod decoder;
mod encoder;
mod laws;
mod marks;
mod packing;
mod reading;
mod tables;

pub use characters::{Char, Rd, Symbol};
pub use decoder::{check, decode, is_comma, is_octet, octet_of, rd_after};
pub use encoder::encode;
pub use laws::{
    check_along_characters, check_along_frames, spelled_disparity_by_ones, spelled_in_ten_bits,
    spells_one_character, symbols_bit_by_bit, symbols_of_pieces,
};
pub use packing::{five_octets, four_symbols, word_at};
pub use reading::{LineState, four_octets, read_symbols, symbol_at};
