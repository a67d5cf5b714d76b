//! The control words of a CPRI hyperframe: what they carry, and what they announce.
#![tactic(auto)]

mod announce;
mod places;
mod read;
mod write;

pub use announce::{Announce, BadControl};
pub use places::{fast_octet, managed_len, slow_octet};
pub use read::{announce_of, announcement_is_read_back, numbers_of};
pub use write::control_word;
