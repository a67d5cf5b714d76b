//! Mapping method 1 of antenna-carriers, IQ sample based: the samples of a block stand one after another in the containers
//! of its basic frames, and stuffing bits last (CPRI Specification V7.0, section 4.2.7.2).
//!
//! A block is `k` basic frames and `s` samples of I and Q in `m` bits each.
#![tactic(auto)]

mod container;
mod laws;
mod packing;
mod unpacking;

pub use container::{size, span};
pub use laws::{places_are_distinct, places_are_in_time, places_are_within};
pub use packing::{pack_frame, pack_raw};
pub use unpacking::{unpack, unpack_raw, unpack_run};
