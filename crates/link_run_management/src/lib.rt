//! The management channels of a run: the octets that control words carry of them, and the lines of what is found in them.
#![tactic(auto)]

mod channel;
mod events;
mod places;
mod reader;

pub use channel::{Channel, push_octets};
pub use events::{put_count, put_line};
pub use places::{fast_len, slow_len};
pub use reader::ManagementReader;
