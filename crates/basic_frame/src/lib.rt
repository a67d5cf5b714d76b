//! Basic frames of a CPRI link: 16 words, of which the first is the control word and the others are the IQ data block.
#![tactic(auto)]

mod frame;

pub use frame::Frame;
