use sample_bits::RawIq;
use thiserror::Error;

/// A sample of which I or Q does not have the bits of its carrier's samples.
#[derive(Clone, Copy, Debug, PartialEq, Eq, Error)]
#[error("sample {number} of carrier {carrier} is out of range")]
pub struct Range {
    /// The place of the carrier.
    pub carrier: u32,
    /// The number of the sample among those of the carrier.
    pub number: u64,
    pub value: RawIq,
}
