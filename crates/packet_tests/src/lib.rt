//! Packets tried by public calls: their octets, their playout, what they carry of a frame, and those that a sender makes. A
//! crate is proved once more with its tests, so these stand apart from the crates that they try.
#![tactic(auto)]

#[cfg(test)]
mod packets;
#[cfg(test)]
mod parts;
#[cfg(test)]
mod plans;
#[cfg(test)]
mod playout;
#[cfg(test)]
mod senders;
