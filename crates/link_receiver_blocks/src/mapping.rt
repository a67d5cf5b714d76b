// How a carrier's samples are mapped into containers, and which of them leave.
ghost use Rattle.std.specs.Prelude.{◌≡◌, ◌<◌};
ghost use Rattle.sample_bits.specs.Blocks.{IsSpan};
ghost use Rattle.sample_bits.specs.SampleRate.{IsSampleRate, IsSampleWidth};

use carrier_plan::{Carrier, Method};

/// How a carrier's samples are mapped: a block of `s` samples of I and Q in `m` bits each stands in the containers of `k`
/// basic frames.
#[derive(Clone, Copy, Debug, PartialEq, Eq)]
pub struct Mapping {
    pub method: Method,
    pub s: u32,
    pub k: u32,
    pub m: u32,
}

/// The samples of a block that leave once a basic frame was played.
#[derive(Clone, Copy, Debug, PartialEq, Eq)]
pub struct Leaving {
    /// The first of them, by its place in the block.
    pub first: u32,
    /// How many there are, 32 at most.
    pub count: u32,
    /// Bit i is 1 where sample `first` + i is marked: a bit of it stands in a basic frame that was missed.
    pub marks: u32,
}

impl Mapping {
    ghost use Rattle.link_receiver_blocks.specs.Containers.{container_bits, mapping_of, place_of_bit};

    /// That of a carrier.
    pub fn of(carrier: &Carrier) -> Mapping
        ensures { result ≡ mapping_of carrier.now }
    {
        Mapping {
            method: carrier.method,
            s: carrier.s,
            k: carrier.k,
            m: carrier.m,
        }
    }

    // The bits of the container that each basic frame carries.
    pub(crate) fn size(self) -> u32
        requires width { IsSampleWidth self.m }
        requires rate { IsSampleRate self.s self.k }
        ensures { result ≡ container_bits self }
    {
        match self.method {
            Method::Sample => axc_sample_map::size(self.m, self.s, self.k),
            Method::Compatible => axc_compatible_map::size(self.m, self.s, self.k),
        }
    }

    // The first and the last frame of a block in which a bit of its sample `r` stands.
    pub(crate) fn span(self, r: u32) -> (u32, u32)
        requires width { IsSampleWidth self.m }
        requires rate { IsSampleRate self.s self.k }
        requires sample { r < self.s }
        ensures { IsSpan self.m (place_of_bit self r) result.0 result.1 }
    {
        match self.method {
            Method::Sample => axc_sample_map::span(self.m, self.s, self.k, r),
            Method::Compatible => axc_compatible_map::span(self.m, self.s, self.k, r),
        }
    }
}
