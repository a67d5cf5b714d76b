// What was done with a payload that arrived.

/// What was done with a payload that arrived.
#[derive(Clone, Copy, Debug, PartialEq, Eq)]
pub enum Put {
    /// It is kept as that of the packet with this number.
    Taken(u64),
    /// One was kept for the packet with this number before.
    Repeat(u64),
    /// No packet with its sequence number may arrive at this tick.
    Outside,
}
