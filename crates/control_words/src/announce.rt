ghost use Rattle.std.specs.Prelude.{◌≡◌};
ghost use Rattle.control_words.specs.Announcement.{allows_hdlc, allows_pointer};

use thiserror::Error;

/// What one end of a link announces to the other in its control words (CPRI Specification V7.0,
/// sections 4.2.7.6 and 4.2.7.7).
#[derive(Clone, Copy, Debug, PartialEq, Eq)]
pub struct Announce {
    /// The protocol version, which is 1.
    pub version: u8,
    /// The HDLC rate code of the slow channel, 0 for none.
    pub hdlc: u8,
    /// The first subchannel of the fast channel, 20 to 63, or 0 for none.
    pub pointer: u8,
    /// Bits of the L1 inband protocol: 0 reset, 1 RAI, 2 SDI, 3 LOS, 4 LOF.
    pub l1: u8,
}

/// Why control words announce nothing. `got` is the whole octet.
#[derive(Clone, Copy, Debug, PartialEq, Eq, Error)]
pub enum BadControl {
    #[error("the first control word is no sync word")]
    Sync,
    #[error("the protocol version {got} is not 1")]
    Version { got: u8 },
    #[error("the octet {got:#04x} has no HDLC rate code for this word size")]
    Hdlc { got: u8 },
    #[error("the octet {got:#04x} has no pointer to a fast channel")]
    Pointer { got: u8 },
}

/// Whether words of so many octets have the places of an HDLC rate code.
pub(crate) fn allows_hdlc(width: usize, code: u8) -> bool
    ensures { result ≡ allows_hdlc width code }
{
    match code {
        0..=2 => true,
        3 => width >= 2,
        4 => width >= 4,
        5 => width >= 5,
        6 => width >= 8,
        _ => false,
    }
}

/// Whether a number is a pointer to a fast channel, or 0 for none.
pub(crate) fn allows_pointer(pointer: u8) -> bool
    ensures { result ≡ allows_pointer pointer }
{
    matches!(pointer, 0 | 20..=63)
}

impl Announce {
    ghost use Rattle.std.specs.Prelude.{◌≡◌, IfSome};
    ghost use Rattle.control_words.specs.Announcement.{announcement_of, IsWithinTable};

    /// The announcement of two channels, of version 1 and with no bit of the L1 inband protocol. None where words of so many
    /// octets have no places of this HDLC rate code, or the pointer is outside its table.
    pub fn of_channels(width: usize, hdlc: u8, pointer: u8) -> Option<Announce>
        ensures announcement { result ≡ announcement_of width hdlc pointer }
        ensures within { IfSome result (IsWithinTable width) }
    {
        if !allows_hdlc(width, hdlc) || !allows_pointer(pointer) {
            return None;
        }
        Some(Announce {
            version: 1,
            hdlc,
            pointer,
            l1: 0,
        })
    }
}
