// Samples of a width.
ghost use Rattle.std.specs.Prelude.{◌≤◌, ◌↔◌, All, IsTrue, MatchOption};
ghost use Rattle.sample_bits.specs.SampleRate.{IsSampleWidth};
ghost use Rattle.sample_bits.specs.Samples.{FitsBits, IsWithin};
ghost use Rattle.link_sender_blocks.specs.Containers.{IsFirstOutside};

use sample_bits::RawIq;

/// The place of the first sample of which I or Q does not have `m` bits.
pub fn first_outside(samples: &[RawIq], m: u32) -> Option<usize>
    requires { IsSampleWidth m }
    ensures { MatchOption result (All (IsWithin m) samples.now) (λ r. IsFirstOutside m samples.now r) }
{
    if are_within(samples, m) {
        return None;
    }
    samples.iter().position(|sample| !is_within(*sample, m))
}

// Whether all have `m` bits. No sample decides what is done with the next, so that many are looked at at once.
#[inline(always)]
fn are_within(samples: &[RawIq], m: u32) -> bool
    requires { IsSampleWidth m }
    ensures { IsTrue result → All (IsWithin m) samples.now }
{
    let mut within = true;
    for sample in samples {
        within &= is_within(*sample, m);
    }
    within
}

// Whether I and Q have `m` bits each.
#[inline(always)]
fn is_within(sample: RawIq, m: u32) -> bool
    requires { IsSampleWidth m }
    ensures { IsTrue result ↔ IsWithin m sample }
{
    fits(sample.i, m) & fits(sample.q, m)
}

// Whether the value has `width` bits.
#[inline(always)]
fn fits(value: i32, width: u32) -> bool
    requires least { 1 ≤ width }
    requires most { width ≤ 31 }
    ensures { IsTrue result ↔ FitsBits width value }
{
    let limit = 1_i32 << (width - 1);
    -limit <= value && value < limit
}
