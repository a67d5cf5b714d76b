// How a carrier's samples are mapped into containers.
ghost use Rattle.std.specs.Prelude.{◌≡◌, ◌+◌, ◌*◌, ◌<◌, ◌≤◌, length};
ghost use Rattle.sample_bits.specs.Blocks.{PutsContainer, bit_of_sample};
ghost use Rattle.sample_bits.specs.SampleRate.{IsSampleRate, IsSampleWidth};

use carrier_plan::{Carrier, Method};
use sample_bits::RawIq;

/// How a carrier's samples are mapped: a block of `s` samples of I and Q in `m` bits each stands in the containers of `k`
/// basic frames.
#[derive(Clone, Copy, Debug, PartialEq, Eq)]
pub struct Mapping {
    pub method: Method,
    pub s: u32,
    pub k: u32,
    pub m: u32,
}

impl Mapping {
    ghost use Rattle.link_sender_blocks.specs.Containers.{container_bits, mapping_of, place_of_bit};

    /// That of a carrier.
    pub fn of(carrier: &Carrier) -> Mapping
        ensures { result ≡ mapping_of carrier.now }
    {
        Mapping {
            method: carrier.method,
            s: carrier.s,
            k: carrier.k,
            m: carrier.m,
        }
    }

    // The bits of the container that each basic frame carries.
    pub(crate) fn size(self) -> u32
        requires width { IsSampleWidth self.m }
        requires rate { IsSampleRate self.s self.k }
        ensures { result ≡ container_bits self }
    {
        match self.method {
            Method::Sample => axc_sample_map::size(self.m, self.s, self.k),
            Method::Compatible => axc_compatible_map::size(self.m, self.s, self.k),
        }
    }

    // Writes the container of frame `phase` of a block from bit `at` of the octets on. All other bits stay.
    pub(crate) fn pack(self, block: &[RawIq], phase: u32, octets: &mut [u8], at: usize)
        requires width { IsSampleWidth self.m }
        requires rate { IsSampleRate self.s self.k }
        requires whole { length block.now ≡ self.s }
        requires frame { phase < self.k }
        requires room { at + container_bits self ≤ 8 * length octets.old }
        ensures { PutsContainer self.m self.s (container_bits self) (place_of_bit self) phase
            (bit_of_sample block.now) octets.old octets.new at }
    {
        let Mapping { method, s, k, m } = self;
        match method {
            Method::Sample => axc_sample_map::pack_raw(block, m, s, k, phase, octets, at),
            Method::Compatible => axc_compatible_map::pack_raw(block, m, s, k, phase, octets, at),
        }
    }
}
