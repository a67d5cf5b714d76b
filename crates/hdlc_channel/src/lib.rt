//! The slow management channel of a CPRI link: frames of octets between flags, with a 16-bit frame checking sequence
//! (ISO/IEC 13239, HDLC).
#![tactic(auto)]

mod content;
mod fcs;
mod frame_queue;
mod laid;
mod laws;
mod outgoing;
mod slow_event;
mod slow_reader;
mod slow_writer;
mod stuffing;
mod unstuffing;

pub use laws::{given_is_read, stream_goes_on, stream_is_read, written_is_read};
pub use slow_event::SlowEvent;
pub use slow_reader::{SlowReader, Taken};
pub use slow_writer::SlowWriter;
