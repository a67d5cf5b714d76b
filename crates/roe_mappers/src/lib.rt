//! The payload modes: what the packets of a flow carry of a basic frame, and how it is read back.
//!
//! Y is the octets of a word of the basic frame. A part is the octets that carry one basic frame in a packet.
//!
//! | mode | part |
//! |---|---|
//! | `tunnel` | The 16·Y symbols of the frame on the line, of ten bits each, one after another. |
//! | `bytes` | The 16·Y octets of the frame. |
//! | `aware` | The Y octets of the control word, where the flow has control, and then the containers of the flow's carriers, one after another without a gap, the lowest bit of an octet first, and zeros to the end of the last octet. |
#![tactic(auto)]

mod containers;
mod laws;
mod mapping;
mod route;
mod spelling;
mod symbols;
mod unmapping;

pub use laws::parts_are_given_back;
pub use mapping::map_frame;
pub use route::Route;
pub use spelling::spell;
pub use unmapping::{Unmapped, unmap_frame};
