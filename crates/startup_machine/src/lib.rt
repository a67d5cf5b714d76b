//! The two ends of a link in a start-up: their states, what they offer each other, and what the two agree on.
#![tactic(auto)]

mod caps;
mod crowded;
mod end;
mod event;
mod laws;
mod offer;
mod side;
mod state;
mod world;

pub use caps::Caps;
pub use crowded::Crowded;
pub use end::End;
pub use event::Event;
pub use laws::{agreement_is_kept, offers_were_made};
pub use offer::Offer;
pub use state::State;
pub use world::World;
