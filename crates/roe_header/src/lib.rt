//! The octets of Radio-over-Ethernet packets.
#![tactic(auto)]

mod packet;
mod reading;
mod writing;

pub use packet::{NotRoe, Packet};
pub use reading::{packet_is_read_back, parse};
pub use writing::write;
