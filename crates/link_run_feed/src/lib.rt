//! How a call of the program ends, what it promises, and the one way in which feeds are read.
#![tactic(auto)]

mod feed;
mod feed_reader;
mod reason;
mod status;
mod written;

pub use feed::{Ahead, Feed, Reading};
pub use feed_reader::read_feed;
pub use reason::Reason;
pub use status::{Status, code};
pub use written::give;
