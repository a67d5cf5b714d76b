// What leaves at a tick.
use sample_bits::RawIq;

/// A sample that leaves, or the mark that stands for it.
#[derive(Clone, Copy, Debug, PartialEq, Eq)]
pub struct Entry {
    /// The tick at which it leaves.
    pub tick: u64,
    /// The place of its carrier.
    pub carrier: u32,
    /// Its number among the samples of the carrier.
    pub number: u64,
    /// The sample, or none where a bit of it stands in a frame that was missed.
    pub value: Option<RawIq>,
}

/// The samples of a carrier that leave at a tick.
#[derive(Clone, Copy, Debug)]
pub struct LeavingSamples<'a> {
    /// The number of the first of them among the samples of the carrier.
    pub number: u64,
    /// They themselves, 32 at most. In place of a marked one any may stand.
    pub samples: &'a [RawIq],
    /// Bit i is 1 where sample i is marked: a bit of it stands in a frame that was missed.
    pub marks: u32,
}

/// How the packets of a flow fared. Those that were not received are missed.
#[derive(Clone, Copy, Debug, PartialEq, Eq)]
pub struct Counts {
    /// The packets that were received.
    pub taken: u64,
    /// The packets of the run.
    pub packets: u64,
}
