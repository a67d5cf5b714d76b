//! The numbering of the basic frames of a CPRI link, and how a receiver synchronizes with it.
#![tactic(auto)]

mod loss;
mod numbering;
mod synchronization;

pub use loss::Los;
pub use numbering::{FramePlace, place_of};
pub use synchronization::{Acquire, SyncState};
