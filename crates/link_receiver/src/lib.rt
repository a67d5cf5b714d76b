//! Plays captured packets back: what is received of each flow, and the samples that leave at each tick.
#![tactic(auto)]

mod arrival;
mod arrive;
mod carrier_in_hand;
mod entry;
mod flow_in_hand;
mod laws;
mod listing;
mod parts;
mod playing;
mod session;
mod word_sizes;

pub use arrive::{Arrive, Foreign};
pub use entry::{Counts, Entry, LeavingSamples};
pub use laws::{candidates_are_unique, entries_are_settled, taken_is_settled};
pub use session::Session;
pub use word_sizes::AnySession;
