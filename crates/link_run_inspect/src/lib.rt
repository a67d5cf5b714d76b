//! The form `inspect LINE`: what the frames of a line say of synchronization, the signal, announcements and management.
#![tactic(auto)]

mod changes;
mod channel_octets;
mod channels;
mod inspection;
mod inspector;
mod reception;
mod words;

pub use inspection::inspect;
