// The size of the container, and the frames that a sample stands in.
ghost use Rattle.std.specs.Prelude.{◌≡◌, ◌<◌};
ghost use Rattle.sample_bits.specs.Blocks.{IsSpan};
ghost use Rattle.sample_bits.specs.SampleRate.{IsSampleRate, IsSampleWidth};
ghost use Rattle.axc_sample_map.specs.Container.{prescribed_size};
ghost use Rattle.axc_sample_map.specs.Place.{place_in_block};

/// The bits of the container that each basic frame carries.
pub fn size(m: u32, s: u32, k: u32) -> u32
    requires width { IsSampleWidth m }
    requires rate { IsSampleRate s k }
    ensures { result ≡ prescribed_size m s k }
{
    2 * (m * s).div_ceil(k)
}

/// The first and the last frame of a block in which a bit of its sample `r` stands.
pub fn span(m: u32, s: u32, k: u32, r: u32) -> (u32, u32)
    requires width { IsSampleWidth m }
    requires rate { IsSampleRate s k }
    requires sample { r < s }
    ensures { IsSpan m (place_in_block m s k r) result.0 result.1 }
{
    let size = size(m, s, k);
    let first = 2 * m * r;
    (first / size, (first + 2 * m - 1) / size)
}
