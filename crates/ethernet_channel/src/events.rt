//! What a reader of the channel finds.

/// What the last group of five bits completes.
#[derive(Clone, Copy, Debug, PartialEq, Eq)]
pub enum FastEvent {
    /// A frame, whose octets the reader lends.
    Frame,
    /// A group that is neither 5 nor D before the frame's first octet, or a fourteenth 5.
    BadPreamble,
    /// A group within a frame that is neither a nibble nor T.
    BadGroup {
        /// The five bits, the first of them highest.
        code: u8,
    },
    /// A group other than R after T.
    NoEnd {
        /// The five bits, the first of them highest.
        code: u8,
    },
    /// The end of a frame that has an odd number of nibbles.
    Odd,
    /// The end of a frame that has no nibble.
    Empty,
    /// A nibble beyond the octets of a longest frame.
    TooLong,
}
