ghost use Rattle.std.specs.Prelude.{◌≡◌};
ghost use Rattle.startup_machine.specs.Offers.{meet};

/// The control and management channels that an end offers.
#[derive(Clone, Copy, Debug, PartialEq, Eq)]
pub struct Offer {
    /// The HDLC rate code of the slow channel, 0 for no channel.
    pub hdlc: u8,
    /// The pointer to the fast channel, 20 to 63, or 0 for no channel. A greater pointer leaves the channel less room.
    pub pointer: u8,
}

impl Offer {
    /// The greatest offer that is at or below both.
    pub(crate) fn meet(self, other: Offer) -> Offer
        ensures { result ≡ meet self other }
    {
        let pointer = if self.pointer == 0 || other.pointer == 0 {
            0
        } else {
            self.pointer.max(other.pointer)
        };
        Offer {
            hdlc: self.hdlc.min(other.hdlc),
            pointer,
        }
    }
}
