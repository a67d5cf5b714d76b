// The containers of a block, filled with its samples.
ghost use Rattle.std.specs.Prelude.{◌≡◌, ℕ, ◌+◌, ◌*◌, ◌/◌, ◌%◌, ◌^◌, ◌<◌, ◌≤◌, All, length};
ghost use Rattle.link_base.specs.Bits.{bit_of};
ghost use Rattle.sample_bits.specs.Blocks.{PutsContainer, bit_of_item, bit_of_sample};
ghost use Rattle.sample_bits.specs.SampleRate.{IsSampleRate, IsSampleWidth};
ghost use Rattle.sample_bits.specs.Samples.{IsWithin};
ghost use Rattle.axc_sample_map.specs.Container.{bit_in_run, prescribed_size};
ghost use Rattle.axc_sample_map.specs.Place.{place_in_block};

use crate::container::size;
use sample_bits::{Iq, RawIq, SampleWord, clear_bits, put_bits, write_run};

/// Writes the container of frame `phase` of the block at bit `at`, stuffing as 0. All other bits stay.
pub fn pack_frame<const M: u32>(
    block: &[Iq<M>],
    s: u32,
    k: u32,
    phase: u32,
    out: &mut [u8],
    at: usize,
)
    requires width { IsSampleWidth M }
    requires rate { IsSampleRate s k }
    requires whole { length block.now ≡ s }
    requires frame { phase < k }
    requires room { at + prescribed_size M s k ≤ 8 * length out.old }
    ensures { PutsContainer M s (prescribed_size M s k) (place_in_block M s k) phase
        (bit_of_sample block.now) out.old out.new at }
{
    pack(block, M, s, k, phase, out, at);
}

/// The same for samples of a width that is known where the program runs.
pub fn pack_raw(block: &[RawIq], m: u32, s: u32, k: u32, phase: u32, out: &mut [u8], at: usize)
    requires width { IsSampleWidth m }
    requires rate { IsSampleRate s k }
    requires whole { length block.now ≡ s }
    requires frame { phase < k }
    requires room { at + prescribed_size m s k ≤ 8 * length out.old }
    ensures { PutsContainer m s (prescribed_size m s k) (place_in_block m s k) phase
        (bit_of_sample block.now) out.old out.new at }
{
    pack(block, m, s, k, phase, out, at);
}

#[inline]
fn pack<T: SampleWord>(block: &[T], m: u32, s: u32, k: u32, phase: u32, out: &mut [u8], at: usize)
    requires width { IsSampleWidth m }
    requires rate { IsSampleRate s k }
    requires whole { length block.now ≡ s }
    requires frame { phase < k }
    requires room { at + prescribed_size m s k ≤ 8 * length out.old }
    ensures { PutsContainer m s (prescribed_size m s k) (place_in_block m s k) phase
        (bit_of_item T.sample block.now) out.old out.new at }
{
    // A block of one frame has whole samples and no stuffing.
    if k == 1 {
        write_run(block, m, out, at);
        return;
    }
    let size = size(m, s, k) as usize;
    put_run(
        block,
        m,
        phase as usize * size,
        size,
        &mut out[at / 8..],
        at % 8,
    );
}

// Writes `count` bits from bit `from` on of samples that stand one after another, with zeros past the last.
#[inline]
fn put_run<T: SampleWord>(
    samples: &[T],
    m: u32,
    from: usize,
    count: usize,
    out: &mut [u8],
    at: usize,
)
    requires width { IsSampleWidth m }
    requires few { length samples.now < 2 ^ 32 }
    requires near { from < 2 ^ 32 }
    requires short { count < 2 ^ 32 }
    requires begin { at < 8 }
    requires room { at + count ≤ 8 * length out.old }
    ensures put { (x : ℕ) → x < count → bit_of out.new (at + x)
        ≡ bit_in_run (2 * m) (bit_of_item T.sample samples.now) (from + x) }
    ensures before { (x : ℕ) → x < at → bit_of out.new x ≡ bit_of out.old x }
    ensures after { (x : ℕ) → at + count ≤ x → bit_of out.new x ≡ bit_of out.old x }
{
    let width = 2 * m as usize;
    let end = at + count;
    let mut next = at;
    let mut skipped = from % width;
    for r in from / width..samples.len() {
        if next == end {
            break;
        }
        let bits = (width - skipped).min(end - next);
        put_bits(out, next, bits, end, samples[r].word(m) >> skipped);
        next += bits;
        skipped = 0;
    }
    clear_bits(out, next, end);
}
