// Which samples are marked: those of which a bit stands in a frame that was missed.
ghost use Rattle.std.specs.Prelude.{◌≡◌, ℕ, ◌+◌, ◌^◌, ◌<◌, ◌≤◌, IsTrue, false, if◌then◌else◌};
ghost use Rattle.std.specs.Int.{bit_at};
ghost use Rattle.sample_bits.specs.SampleRate.{IsSampleRate, IsSampleWidth};
ghost use Rattle.link_receiver_blocks.specs.Held.{is_missed};

use crate::mapping::Mapping;

/// The marks of `count` samples from sample `first` on. Bit i is 1 where a bit of sample `first` + i stands in a frame
/// whose bit in the mask is 1.
pub fn marks_of(mapping: Mapping, missed: u128, first: u32, count: u32) -> u32
    requires width { IsSampleWidth mapping.m }
    requires rate { IsSampleRate mapping.s mapping.k }
    requires samples { first + count ≤ mapping.s }
    requires few { count ≤ 32 }
    ensures marks { (i : ℕ) → i < count
        → bit_at result i ≡ (if is_missed mapping missed (first + i) then 1 else 0) }
    ensures no_others { result < 2 ^ count }
{
    if missed == 0 {
        return 0;
    }
    let mut marks = 0;
    for i in 0..count {
        marks |= mark_of(mapping, missed, first + i) << i;
    }
    marks
}

// The mark of sample `r`.
fn mark_of(mapping: Mapping, missed: u128, r: u32) -> u32
    requires width { IsSampleWidth mapping.m }
    requires rate { IsSampleRate mapping.s mapping.k }
    requires sample { r < mapping.s }
    ensures { result ≡ (if is_missed mapping missed r then 1 else 0) }
{
    let (first, last) = mapping.span(r);
    u32::from(has_one(missed, first, last))
}

// Whether one of the bits `first` to `last` of a mask is 1.
fn has_one(mask: u128, first: u32, last: u32) -> bool
    requires order { first ≤ last }
    requires short { last < 127 }
    ensures one { IsTrue result → (p : ℕ) × (first ≤ p) × (p ≤ last) × (bit_at mask p ≡ 1) }
    ensures none { result ≡ false → (p : ℕ) → first ≤ p → p ≤ last → bit_at mask p ≡ 0 }
{
    let count = last - first + 1;
    (mask >> first) & ((1 << count) - 1) != 0
}
