// The refusal of a queue that has a bound.
use std::error::Error;
use std::fmt;

/// A queue has no room for what was handed in. `room` is the octets that it has room for.
#[derive(Clone, Copy, Debug, PartialEq, Eq)]
pub struct Full {
    pub room: usize,
}

impl fmt::Display for Full {
    fn fmt<W: fmt::Write>(&self, f: &mut fmt::Formatter<W>) -> fmt::Result {
        write!(f, "the queue has room for {} octets", self.room)
    }
}

impl Error for Full {}
