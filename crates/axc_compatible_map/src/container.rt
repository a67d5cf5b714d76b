// The containers of a block, and which of them carries a sample.
ghost use Rattle.std.specs.Prelude.{◌≡◌, ◌+◌, ◌*◌, ◌<◌, ◌≤◌};
ghost use Rattle.std.specs.Int.{div_ceil};
ghost use Rattle.sample_bits.specs.Blocks.{IsSpan};
ghost use Rattle.sample_bits.specs.SampleRate.{IsSampleRate, IsSampleWidth};
ghost use Rattle.axc_compatible_map.specs.Container.{frame_containers, prescribed_size, is_stuffing};
ghost use Rattle.axc_compatible_map.specs.Place.{place_in_block};

/// How many containers each basic frame has.
pub fn containers(s: u32, k: u32) -> u32
    requires { IsSampleRate s k }
    ensures { result ≡ frame_containers s k }
{
    s.div_ceil(k)
}

/// The bits of all containers of a basic frame.
pub fn size(m: u32, s: u32, k: u32) -> u32
    requires width { IsSampleWidth m }
    requires rate { IsSampleRate s k }
    ensures { result ≡ prescribed_size m s k }
{
    2 * m * containers(s, k)
}

/// Whether container `u` of a block is stuffing.
pub fn is_stuffing(u: u32, s: u32, k: u32) -> bool
    requires { IsSampleRate s k }
    ensures { result ≡ is_stuffing u s k }
{
    let all = containers(s, k) * k;
    u < all && u * s % all + s < all
}

// The container of sample `r`.
pub(crate) fn container_of(s: u32, k: u32, r: u32) -> u32
    requires rate { IsSampleRate s k }
    requires sample { r ≤ s }
    ensures { result + 1 ≡ div_ceil ((r + 1) * (frame_containers s k * k)) s }
{
    ((r + 1) * (containers(s, k) * k)).div_ceil(s) - 1
}

/// The first and the last frame of a block in which a bit of its sample `r` stands: the one that carries its container.
pub fn span(m: u32, s: u32, k: u32, r: u32) -> (u32, u32)
    requires width { IsSampleWidth m }
    requires rate { IsSampleRate s k }
    requires sample { r < s }
    ensures { IsSpan m (place_in_block m s k r) result.0 result.1 }
{
    let phase = container_of(s, k, r) / containers(s, k);
    (phase, phase)
}
