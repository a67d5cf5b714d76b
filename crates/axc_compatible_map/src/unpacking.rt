// Samples out of the containers of a block.
ghost use Rattle.std.specs.Prelude.{◌≡◌, ℕ, ◌+◌, ◌*◌, ◌<◌, ◌≤◌, length};
ghost use Rattle.std.specs.List.{HoldsAt};
ghost use Rattle.sample_bits.specs.Blocks.{sample_in_block};
ghost use Rattle.sample_bits.specs.SampleRate.{IsSampleRate, IsSampleWidth};
ghost use Rattle.axc_compatible_map.specs.Container.{prescribed_size};
ghost use Rattle.axc_compatible_map.specs.Place.{place_in_block};

use crate::container::{container_of, containers};
use sample_bits::{Iq, RawIq, read_run};

/// Reads sample `r` from the containers of a block, which stand one after another from bit 0 of the octets on.
pub fn unpack<const M: u32>(ring: &[u8], s: u32, k: u32, r: u32) -> Iq<M>
    requires width { IsSampleWidth M }
    requires rate { IsSampleRate s k }
    requires sample { r < s }
    requires whole { k * prescribed_size M s k ≤ 8 * length ring.now }
    ensures { result ≡ sample_in_block M (prescribed_size M s k) (place_in_block M s k r) ring.now 0 }
{
    Iq::read(ring, 2 * M as usize * container_of(s, k, r) as usize)
}

/// Reads the samples of a block from sample `first` on, as many as there is room for. The containers of the block stand
/// one after another from bit `start` of the octets on.
pub fn unpack_run<const M: u32>(
    octets: &[u8],
    start: usize,
    s: u32,
    k: u32,
    first: u32,
    out: &mut [RawIq],
)
    requires width { IsSampleWidth M }
    requires rate { IsSampleRate s k }
    requires samples { first + length out.old ≤ s }
    requires whole { start + k * prescribed_size M s k ≤ 8 * length octets.now }
    ensures { (i : ℕ) → i < length out.old → HoldsAt (λ v. v ≡ sample_in_block M
        (prescribed_size M s k) (place_in_block M s k (first + i)) octets.now start) out.new i }
{
    let octets = &octets[start / 8..];

    // Every container of a block of one frame carries a sample.
    if k == 1 {
        read_run::<M>(octets, start % 8 + 2 * M as usize * first as usize, out);
        return;
    }
    let all = containers(s, k) * k;
    let (whole, rest) = (all / s, all % s);

    // The container of the next sample, and what of it is due to the samples after that one.
    let mut container = container_of(s, k, first);
    let mut spare = (container + 1) * s - (first + 1) * all;
    for sample in out.iter_mut() {
        let from = start % 8 + 2 * M as usize * container as usize;
        *sample = Iq::<M>::read(octets, from).wide();
        container += whole;
        if spare < rest {
            container += 1;
            spare += s;
        }
        spare -= rest;
    }
}

/// The same for samples of a width that is known where the program runs.
pub fn unpack_raw(
    octets: &[u8],
    start: usize,
    m: u32,
    s: u32,
    k: u32,
    first: u32,
    out: &mut [RawIq],
)
    requires width { IsSampleWidth m }
    requires rate { IsSampleRate s k }
    requires samples { first + length out.old ≤ s }
    requires whole { start + k * prescribed_size m s k ≤ 8 * length octets.now }
    ensures { (i : ℕ) → i < length out.old → HoldsAt (λ v. v ≡ sample_in_block m
        (prescribed_size m s k) (place_in_block m s k (first + i)) octets.now start) out.new i }
{
    macro_rules! by_width {
        ($($width:literal)*) => {
            match m {
                $($width => unpack_run::<$width>(octets, start, s, k, first, out),)*
                _ => unpack_run::<20>(octets, start, s, k, first, out),
            }
        };
    }
    by_width!(4 5 6 7 8 9 10 11 12 13 14 15 16 17 18 19)
}
