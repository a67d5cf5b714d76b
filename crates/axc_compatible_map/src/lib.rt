//! Mapping method 3 of antenna-carriers, backward compatible: a basic frame has containers of one sample each, and those
//! of a block that carry no sample are stuffing (CPRI Specification V7.0, section 4.2.7.2).
//!
//! A block is `k` basic frames and `s` samples of I and Q in `m` bits each.
#![tactic(auto)]

mod container;
mod laws;
mod packing;
mod unpacking;

pub use container::{containers, is_stuffing, size, span};
pub use laws::{places_are_distinct, places_are_in_time, places_are_within};
pub use packing::{pack_frame, pack_raw};
pub use unpacking::{unpack, unpack_raw, unpack_run};
