//! Containers tried by public calls: samples as bits, the maps of both methods, and the blocks of a carrier as they are sent
//! and played. A crate is proved once more with its tests, so these stand apart from the crates that they try.
#![tactic(auto)]

#[cfg(test)]
mod backward_compatible;
#[cfg(test)]
mod played_blocks;
#[cfg(test)]
mod sample_based;
#[cfg(test)]
mod samples;
#[cfg(test)]
mod sent_blocks;
