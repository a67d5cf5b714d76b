ghost use Rattle.std.specs.Prelude.{IsTrue};
ghost use Rattle.startup_machine.specs.Range.{is_in_range};

use crate::Offer;

/// What an end is capable of, which is its first offer.
#[derive(Clone, Copy, Debug, PartialEq, Eq)]
pub struct Caps {
    /// The greatest HDLC rate code of the slow channel, 0 to 6, where 0 is no channel.
    pub hdlc: u8,
    /// The least pointer to the fast channel, 20 to 63, or 0 for no channel.
    pub pointer: u8,
    ghost in_range: { IsTrue (is_in_range hdlc pointer) },
}

impl Caps {
    ghost use Rattle.std.specs.Prelude.{◌≡◌, IfSome, IfNone, IsTrue, IsFalse};
    ghost use Rattle.startup_machine.specs.Offers.{greatest_offer};
    ghost use Rattle.startup_machine.specs.Range.{is_in_range};

    /// The caps of this rate code and this pointer, where an end can have them.
    pub fn of(hdlc: u64, pointer: u64) -> Option<Caps>
        ensures in_range { IfSome result (λ caps. IsTrue (is_in_range hdlc pointer)) }
        ensures hdlc { IfSome result (λ caps. caps.hdlc ≡ hdlc) }
        ensures pointer { IfSome result (λ caps. caps.pointer ≡ pointer) }
        ensures none { IfNone result (IsFalse (is_in_range hdlc pointer)) }
    {
        if hdlc > 6 || pointer > 63 || (pointer > 0 && pointer < 20) {
            return None;
        }
        Some(Caps {
            hdlc: hdlc as u8,
            pointer: pointer as u8,
        })
    }

    /// The offer of all that the end is capable of.
    pub(crate) fn greatest_offer(self) -> Offer
        ensures { result ≡ greatest_offer self }
    {
        Offer {
            hdlc: self.hdlc,
            pointer: self.pointer,
        }
    }
}
