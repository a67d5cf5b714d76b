use thiserror::Error;

/// Octets before the payload: the addresses, the EtherType and the RoE header (IEEE 1914.3-2018).
pub(crate) const HEADER: usize = 22;
/// The EtherType of Radio over Ethernet.
pub(crate) const ETHER_TYPE: u16 = 0xFC3D;

/// A Radio-over-Ethernet packet. Its payload lies in the octets that it was read from.
#[derive(Clone, Copy, Debug, PartialEq, Eq)]
pub struct Packet<'a> {
    /// The destination address.
    pub dst: [u8; 6],
    /// The source address.
    pub src: [u8; 6],
    /// The subtype: 2 for frames whole, as octets or symbols, 3 for their parts, 4 for slow C&M.
    pub sub: u8,
    /// The flow id.
    pub flow: u8,
    /// The ordering information.
    pub seq: u32,
    pub payload: &'a [u8],
}

/// Why octets are no packet.
#[derive(Clone, Copy, Debug, PartialEq, Eq, Error)]
pub enum NotRoe {
    #[error("{length} octets are too few for a header")]
    Short { length: usize },
    #[error("the EtherType is {got:#06x}")]
    EtherType { got: u16 },
    #[error("the subtype is {got}")]
    SubType { got: u8 },
    #[error("the header says {said} octets of payload, and {there} follow it")]
    Length { said: u16, there: usize },
}
