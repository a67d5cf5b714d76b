//! The samples in hand of a carrier: those of the block that is handed in, and those of the block before it, which the basic
//! frames carry in the meantime.
//!
//! A carrier's samples stand in blocks, each in the containers of k basic frames. A block is sent in the frames of the next
//! block, and the frames of the first block carry silence.
#![tactic(auto)]

mod cutting;
mod mapping;
mod range;
mod samples;

pub use mapping::Mapping;
pub use range::first_outside;
pub use samples::SamplesInHand;
