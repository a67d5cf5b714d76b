// The packets of a flow in a run, and which of them a sequence number stands for.
ghost use Rattle.std.specs.Prelude.{◌≡◌, ℕ, ◌+◌, ◌-◌, ◌%◌, ◌<◌, ◌≤◌, ◌^◌, MatchOption};
ghost use Rattle.playout_buffer.specs.Candidate.{candidate_of, packets_opened};
ghost use Rattle.playout_buffer.specs.Conditions.{IsWindow};

/// The packets of a flow in a run: when they arrive and are played, how they are numbered, and how many are held.
///
/// Packet i carries the basic frames i·`frames` to (i + 1)·`frames` − 1. It is whole at tick (i + 1)·`frames` − 1, and
/// arrives `lmin` to `lmax` ticks later. Frame n is played at tick n + `playout`.
#[derive(Clone, Copy, Debug, PartialEq, Eq)]
pub struct Window {
    /// The basic frames of a packet.
    pub frames: u32,
    /// The fewest ticks from the one at which a packet is whole to its arrival.
    pub lmin: u32,
    /// The most ticks from the one at which a packet is whole to its arrival.
    pub lmax: u32,
    /// The ticks between a frame and its play.
    pub playout: u32,
    /// The payloads for which there is room.
    pub cap: u32,
    /// How many numbers the lower half of a sequence number counts through.
    pub p: u32,
    /// How many numbers the upper half of a sequence number counts through.
    pub q: u32,
    /// The octets of one basic frame in a payload.
    pub octets: usize,
    /// The packets of the run.
    pub packets: u64,
}

impl Window {
    /// How many packets have windows that have opened by tick `now`, where so many had by the tick before.
    pub(crate) fn opened(&self, now: u64, before: u64) -> u64
        requires window { IsWindow self.now }
        requires later { 1 ≤ now }
        requires tick { now ≤ 2 ^ 41 }
        requires before { before ≡ packets_opened self.now (now - 1) }
        ensures { result ≡ packets_opened self.now now }
    {
        let whole = (before + 1) * u64::from(self.frames);
        if now + 1 == whole + u64::from(self.lmin) {
            before + 1
        } else {
            before
        }
    }

    /// The packet that has the sequence number `seq` and may arrive at tick `now`, by which the windows of so many packets
    /// have opened.
    pub(crate) fn candidate(&self, now: u64, opened: u64, seq: u32) -> Option<u64>
        requires window { IsWindow self.now }
        requires tick { now ≤ 2 ^ 41 }
        requires opened { opened ≡ packets_opened self.now now }
        ensures { result ≡ candidate_of self.now now seq }
    {
        let p = u64::from(self.p);
        let q = u64::from(self.q);
        let low = u64::from(seq % 65_536);
        let high = u64::from(seq / 65_536);
        if low >= p || high >= q {
            return None;
        }
        let latest = latest_below(opened, high * p + low, q * p)?;
        let whole = (latest + 1) * u64::from(self.frames);
        if latest < self.packets && now < whole + u64::from(self.lmax) {
            Some(latest)
        } else {
            None
        }
    }
}

// The greatest number below `end` that has this remainder.
fn latest_below(end: u64, remainder: u64, modulus: u64) -> Option<u64>
    requires { remainder < modulus }
    ensures { MatchOption result
        ((i : ℕ) → i % modulus ≡ remainder → end ≤ i)
        (λ i. (i < end) × (i % modulus ≡ remainder) × (end ≤ i + modulus)) }
{
    if end <= remainder {
        return None;
    }
    let behind = end - 1 - remainder;
    // Where the numbers last for the run, nothing is divided.
    if behind < modulus {
        return Some(remainder);
    }
    Some(end - 1 - behind % modulus)
}
