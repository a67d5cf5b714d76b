// The containers of a block, filled with its samples.
ghost use Rattle.std.specs.Prelude.{◌≡◌, ℕ, ◌+◌, ◌*◌, ◌<◌, ◌≤◌, All, IsTrue, length, if◌then◌else◌};
ghost use Rattle.std.specs.Int.{bit_at};
ghost use Rattle.link_base.specs.Bits.{bit_of};
ghost use Rattle.sample_bits.specs.Blocks.{PutsContainer, bit_of_item, bit_of_sample};
ghost use Rattle.sample_bits.specs.SampleRate.{IsSampleRate, IsSampleWidth};
ghost use Rattle.sample_bits.specs.Samples.{IsWithin};
ghost use Rattle.axc_compatible_map.specs.Container.{bit_of_container, frame_containers, prescribed_size};
ghost use Rattle.axc_compatible_map.specs.Place.{place_in_block};

use crate::container::containers;
use sample_bits::{Iq, RawIq, SampleWord, put_bits, write_run};

/// Writes the containers of frame `phase` of the block from bit `at` on, stuffing as 0. All other bits stay.
pub fn pack_frame<const M: u32>(
    block: &[Iq<M>],
    s: u32,
    k: u32,
    phase: u32,
    out: &mut [u8],
    at: usize,
)
    requires width { IsSampleWidth M }
    requires rate { IsSampleRate s k }
    requires whole { length block.now ≡ s }
    requires frame { phase < k }
    requires room { at + prescribed_size M s k ≤ 8 * length out.old }
    ensures { PutsContainer M s (prescribed_size M s k) (place_in_block M s k) phase
        (bit_of_sample block.now) out.old out.new at }
{
    pack(block, M, s, k, phase, out, at);
}

/// The same for samples of a width that is known where the program runs.
pub fn pack_raw(block: &[RawIq], m: u32, s: u32, k: u32, phase: u32, out: &mut [u8], at: usize)
    requires width { IsSampleWidth m }
    requires rate { IsSampleRate s k }
    requires whole { length block.now ≡ s }
    requires frame { phase < k }
    requires room { at + prescribed_size m s k ≤ 8 * length out.old }
    ensures { PutsContainer m s (prescribed_size m s k) (place_in_block m s k) phase
        (bit_of_sample block.now) out.old out.new at }
{
    pack(block, m, s, k, phase, out, at);
}

#[inline]
fn pack<T: SampleWord>(block: &[T], m: u32, s: u32, k: u32, phase: u32, out: &mut [u8], at: usize)
    requires width { IsSampleWidth m }
    requires rate { IsSampleRate s k }
    requires whole { length block.now ≡ s }
    requires frame { phase < k }
    requires room { at + prescribed_size m s k ≤ 8 * length out.old }
    ensures { PutsContainer m s (prescribed_size m s k) (place_in_block m s k) phase
        (bit_of_item T.sample block.now) out.old out.new at }
{
    // Every container of a block of one frame carries a sample.
    if k == 1 {
        write_run(block, m, out, at);
        return;
    }
    put_containers(block, m, s, k, phase, &mut out[at / 8..], at % 8);
}

// Writes the containers of a frame from a bit of the first octet on.
#[inline]
fn put_containers<T: SampleWord>(
    block: &[T],
    m: u32,
    s: u32,
    k: u32,
    phase: u32,
    out: &mut [u8],
    at: usize,
)
    requires width { IsSampleWidth m }
    requires rate { IsSampleRate s k }
    requires whole { length block.now ≡ s }
    requires frame { phase < k }
    requires begin { at < 8 }
    requires room { at + prescribed_size m s k ≤ 8 * length out.old }
    ensures put { (j b : ℕ) → j < frame_containers s k → b < 2 * m
        → bit_of out.new (at + j * (2 * m) + b)
        ≡ bit_of_container s k (bit_of_item T.sample block.now) (phase * frame_containers s k + j) b }
    ensures before { (x : ℕ) → x < at → bit_of out.new x ≡ bit_of out.old x }
    ensures after { (x : ℕ) → at + prescribed_size m s k ≤ x → bit_of out.new x ≡ bit_of out.old x }
{
    let width = 2 * m as usize;
    let count = containers(s, k);
    let all = count * k;
    let end = at + width * count as usize;

    // The sample that the next container carries, if it carries one, and what of it the containers so far are due.
    let mut sample = phase * s / k;
    let mut due = phase * s % k * count;
    for j in 0..count {
        due += s;
        let carries = all <= due;
        let word = word_or_zero(block, m, sample as usize, carries);
        put_bits(out, at + width * j as usize, width, end, word);
        if carries {
            sample += 1;
            due -= all;
        }
    }
}

// The word of sample `r`, or 0 for stuffing.
#[inline]
fn word_or_zero<T: SampleWord>(block: &[T], m: u32, r: usize, carries: bool) -> u64
    requires width { IsSampleWidth m }
    requires sample { IsTrue carries → r < length block.now }
    ensures { (b : ℕ) → b < 2 * m
        → bit_at result b ≡ (if carries then bit_of_item T.sample block.now r b else 0) }
{
    if carries { block[r].word(m) } else { 0 }
}
