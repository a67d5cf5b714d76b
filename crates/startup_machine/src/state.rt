/// The states of a start-up (CPRI Specification V7.0, section 4.5).
#[derive(Clone, Copy, Debug, PartialEq, Eq)]
pub enum State {
    /// Standby.
    A,
    /// Synchronization of layer 1 and negotiation of the line bit rate.
    B,
    /// Setup of the protocol version.
    C,
    /// Setup of the control and management channels.
    D,
    /// Negotiation of interface and vendor.
    E,
    /// Operation.
    F,
    /// Passive link: no control and management channel.
    G,
}
