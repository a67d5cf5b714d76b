//! That each sample of a stream leaves unchanged after its delay, or is marked where packets that carry a bit of it are
//! lost: what that means, and the laws that say so. That each packet of a stream has octets, and which, are laws too, and that
//! the management frames of a stream are printed where no control word is missed.
#![tactic(auto)]

mod laws;

pub use laws::{
    channels_are_prefixes, control_is_sent, frames_are_those, management_arrives,
    packets_are_those, packets_exist, prefixes_are_read, read_addresses_are_octets,
    read_plans_are_plain, samples_are_delayed,
};
