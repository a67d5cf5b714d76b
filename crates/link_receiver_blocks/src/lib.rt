//! The block in hand of a carrier: its containers as basic frames are played, and the samples that leave.
//!
//! A carrier's samples stand in blocks, each in the containers of k basic frames. A sample leaves as soon as the frames
//! that carry it were played, and is marked where one of them was missed.
#![tactic(auto)]

mod block;
mod gathering;
mod mapping;
mod marks;
mod reading;

pub use block::BlockInHand;
pub use mapping::{Leaving, Mapping};
