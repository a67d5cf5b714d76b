// The rate and the width of a carrier's samples.
ghost use Rattle.std.specs.Prelude.{◌↔◌, IsTrue};
ghost use Rattle.std.specs.Int.{IsGcd, ◌∣◌};
ghost use Rattle.sample_bits.specs.SampleRate.{IsCoprime};
ghost use Rattle.plan_checker.specs.SampleRate.{HasSampleRate, HasSampleWidth};

use carrier_plan::Carrier;

// The basic frames of a radio frame of 10 ms.
const FRAMES_OF_RADIO_FRAME: u32 = 38_400;

fn greatest_common_divisor(a: u32, b: u32) -> u32
    ensures { IsGcd a b result }
{
    let mut x = a;
    let mut y = b;
    while y != 0 {
        let rest = x % y;
        x = y;
        y = rest;
    }
    x
}

fn is_coprime(a: u32, b: u32) -> bool
    ensures { IsTrue result ↔ IsCoprime a b }
{
    greatest_common_divisor(a, b) == 1
}

// Whether blocks of `k` basic frames fill a radio frame of 150 hyperframes.
pub(crate) fn fills_radio_frame(k: u32) -> bool
    ensures { IsTrue result ↔ (k ∣ 38_400) }
{
    k != 0 && FRAMES_OF_RADIO_FRAME % k == 0
}

pub(crate) fn has_sample_rate(carrier: &Carrier) -> bool
    ensures { IsTrue result ↔ HasSampleRate carrier.now }
{
    let Carrier { s, k, .. } = *carrier;
    fills_radio_frame(k) && k <= 96 && (1..=32 * k).contains(&s) && is_coprime(s, k)
}

pub(crate) fn has_sample_width(carrier: &Carrier) -> bool
    ensures { IsTrue result ↔ HasSampleWidth carrier.now }
{
    (4..=20).contains(&carrier.m)
}
