//! Samples of an antenna-carrier as bits: their range, their interleaved word, and bits copied from one octet list to
//! another or put there from a word.
#![tactic(auto)]

mod copy;
mod interleaving;
mod iq;
mod put;
mod run;
mod words;
mod writing;

pub use copy::copy_bits;
pub use iq::{Iq, RawIq, SampleWord};
pub use put::{clear_bits, put_bits};
pub use run::read_run;
pub use writing::write_run;
