/// What may happen at an end.
#[derive(Clone, Copy, Debug, PartialEq, Eq)]
pub enum Event {
    /// The end leaves standby.
    Start,
    /// The end announces its offer, which is then on its way to the other end.
    Tell,
    /// The end hears the oldest announcement on its way to it.
    Hear,
    /// The newest announcement on its way to the end is lost.
    Lose,
    /// The newest announcement on its way to the end comes once more.
    Again,
    /// The end's negotiation of interface and vendor ends.
    Agree,
    /// The end loses the other end's signal.
    Silence,
    /// The end goes back to standby.
    Reset,
}
