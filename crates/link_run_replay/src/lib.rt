//! The call `replay`: captured packets are played, and the samples that leave and what the management channels say are printed.
#![tactic(auto)]

mod capture_run;
mod entry_lines;
mod laws;
mod player;
mod replay;

pub use laws::{captures_are_replayed, text_is_whole};
pub use replay::replay_capture;
