//! Basic frames and packets of the samples and management frames that are handed in.
//!
//! A run has a tick for each basic frame. Frame n carries the samples of blocks that were handed in before tick n, and a
//! packet is ready `lmin` ticks after its last frame.
#![tactic(auto)]

mod channels;
mod containers;
mod laws;
mod packet_ring;
mod packets;
mod range;
mod sender;
mod word_sizes;

pub use laws::{
    frames_are_determined, frames_are_settled, packets_are_determined, packets_are_settled,
};
pub use range::Range;
pub use sender::Sender;
pub use word_sizes::AnySender;
