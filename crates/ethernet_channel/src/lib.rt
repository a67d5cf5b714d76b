//! The fast management channel of a CPRI link: Ethernet frames in the 4B/5B code, written and read.
#![tactic(auto)]

mod encoder;
mod encoding;
mod events;
mod frame_queue;
mod groups;
mod laws;
mod nibbles;
mod reader;
mod register;
mod writer;

pub use events::FastEvent;
pub use laws::{
    events_of_a_front, events_with_one_more_bit, queued_frames_are_found, stream_goes_on,
    written_frames_are_found,
};
pub use reader::FastReader;
pub use writer::FastWriter;
