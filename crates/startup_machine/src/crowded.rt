use thiserror::Error;

/// Why an event is refused: the list of announcements that it would add to holds as many as it may.
#[derive(Clone, Copy, Debug, PartialEq, Eq, Error)]
#[error("{held} announcements are on their way, and there is no room for another")]
pub struct Crowded {
    /// How many announcements the list holds.
    pub held: usize,
}
