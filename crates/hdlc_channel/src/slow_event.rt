//! What a reader of the slow channel answers.

/// What a bit completes.
#[derive(Clone, Copy, Debug, PartialEq, Eq)]
pub enum SlowEvent {
    /// A frame whose sequence is right. `SlowReader::frame` lends its octets.
    Frame,
    /// Seven 1s in a row ended a frame of more than six bits.
    Aborted,
    /// Fewer than 24 bits stand between two flags.
    TooShort { bits: u32 },
    /// The bits between two flags make up no whole octets.
    Uneven { bits: u32 },
    /// The sequence at the end of a frame, and the one that its other octets have.
    BadFcs { got: u16, want: u16 },
    /// More bits were collected than the longest frame has.
    TooLong,
}
