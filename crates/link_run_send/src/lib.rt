//! The calls `send` and `line`: the packets of a file of samples, or their symbols on the line.
#![tactic(auto)]

mod ahead;
mod due;
mod laws;
mod run_output;
mod sample_feed;
mod sample_line;
mod sample_lines;
mod sample_run;
mod send;

pub use laws::{
    files_are_sent, packets_are_written_once, symbols_are_one_line, text_is_settled, text_is_whole,
    ticks_are_complete,
};
pub use run_output::Output;
pub use send::{line_samples, send_samples};
