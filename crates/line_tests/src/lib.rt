//! The line and the start-up tried by public calls: frames, control words, symbols, both management channels, and the two
//! ends. A crate is proved once more with its tests, so these stand apart from the crates that they try.
#![tactic(auto)]

#[cfg(test)]
mod ends;
#[cfg(test)]
mod fast_channel;
#[cfg(test)]
mod frames;
#[cfg(test)]
mod hyperframes;
#[cfg(test)]
mod slow_channel;
#[cfg(test)]
mod start_ups;
#[cfg(test)]
mod symbols;
#[cfg(test)]
mod words;
