//! Laws over the calls of the program that rest on the delay of every sample: of drills, and of captures in which nothing is lost.
#![tactic(auto)]

mod laws;

pub use laws::{drill_counts_all, send_is_replayed, sent_are_played, sent_are_replayed};
