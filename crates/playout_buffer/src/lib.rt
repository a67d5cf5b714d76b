//! The packets of a flow between their arrival and their play.
#![tactic(auto)]

mod laws;
mod played_frame;
mod playout;
mod put;
mod window;

pub use laws::{
    arrivals_are_fresh, candidate_is_found, candidates_are_unique, held_is_received,
    held_packets_have_own_slots, received_is_settled, taken_are_counted,
};
pub use playout::Playout;
pub use put::Put;
pub use window::Window;
