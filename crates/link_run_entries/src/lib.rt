//! Runs of samples that leave, as text.
#![tactic(auto)]

mod digits;
mod front;
mod run;
mod store;

pub use front::TickText;
pub use run::{ROOM, put_run};
