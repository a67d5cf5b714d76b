// The numbers that are drawn, and the samples that are made of them.
ghost use Rattle.std.specs.Prelude.{◌≡◌, ℕ, ◌+◌, ◌*◌, ◌^◌, ◌<◌, ◌-ℤ◌, IfOk, OnOk, pos};
ghost use Rattle.link_drill.specs.Draws.{IsAt, draw, drawn_sample, drawn_samples};

use link_base::NoMemory;
use sample_bits::RawIq;
use std::alloc::Global;

/// Draws numbers of 15 bits from a seed.
#[derive(Drop)]
pub(crate) struct Generator {
    seed: u32,
}

impl Generator {
    pub(crate) fn new(number: u32) -> Generator
        ensures { IsAt result number 0 }
    {
        Generator { seed: number }
    }

    /// The next number.
    pub(crate) fn draw(&mut self) -> u32
        ensures value { (number k : ℕ) → IsAt self.old number k → result ≡ draw number k }
        ensures next { (number k : ℕ) → IsAt self.old number k → IsAt self.new number (k + 1) }
        ensures small { result < 2 ^ 15 }
    {
        let seed = (1_103_515_245 * u64::from(self.seed) + 12_345) % (1 << 31);
        self.seed = seed as u32;
        self.seed / 65_536
    }

    // The next number, less half of the greatest.
    fn draw_signed(&mut self) -> i32
        ensures value { (number k : ℕ) → IsAt self.old number k → result ≡ pos (draw number k) -ℤ pos 16_384 }
        ensures next { (number k : ℕ) → IsAt self.old number k → IsAt self.new number (k + 1) }
    {
        self.draw() as i32 - 16_384
    }

    fn draw_sample(&mut self) -> RawIq
        ensures value { (number m : ℕ) → IsAt self.old number (1 + 2 * m) → result ≡ drawn_sample number m }
        ensures next { (number m : ℕ) → IsAt self.old number (1 + 2 * m) → IsAt self.new number (1 + 2 * (m + 1)) }
    {
        let i = self.draw_signed();
        let q = self.draw_signed();
        RawIq { i, q }
    }

    /// The next samples, where the first draw was made.
    pub(crate) fn draw_samples(
        &mut self,
        alloc: Global,
        count: usize,
    ) -> Result<Vec<RawIq>, NoMemory>
        ensures value { IfOk result (λ samples. (number : ℕ) → IsAt self.old number 1 → samples.items ≡ drawn_samples number count) }
        ensures next { OnOk result ((number : ℕ) → IsAt self.old number 1 → IsAt self.new number (1 + 2 * count)) }
    {
        let mut samples = Vec::with_capacity(alloc, count)?;
        for _ in 0..count {
            samples.push(self.draw_sample())?;
        }
        Ok(samples)
    }
}
