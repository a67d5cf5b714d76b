// One basic frame, seen as its octets.
ghost use Rattle.std.specs.Prelude.{◌≡◌, ◌+◌, ◌*◌, ◌<◌, ◌≤◌, ◌↔◌, ◌++◌, length, take, drop, replicate, IsTrue, IfOk};
ghost use Rattle.basic_frame.specs.Frames.{iq_bit};
ghost use Rattle.link_base.specs.WordSize.{IsWordSize};
ghost use Rattle.sample_bits.specs.Copied.{CopiesBits};

use link_base::NoMemory;
use sample_bits::copy_bits;
use std::alloc::Global;
use std::marker::Model;

/// A basic frame with words of Y octets: 16·Y octets, in the order in which they are sent (CPRI Specification V7.0,
/// section 4.2.7.1).
///
/// Word 0 is the control word and words 1 to 15 are the IQ data block. IQ bit x, below 120·Y, is bit x mod 8 of octet
/// Y + x div 8, where bit 0 is the lowest of an octet.
#[derive(Debug, Drop)]
pub struct Frame<const Y: usize> {
    octets: Vec<u8>,
}

impl<const Y: usize> Model for Frame<Y> {
    ghost use Rattle.std.specs.Prelude.{◌≡◌, ◌*◌, ℕ, List, length};
    ghost use Rattle.link_base.specs.WordSize.{IsWordSize};

    ghost Value = { List ℕ };

    ghost view = { λ f. f.octets.items };

    ghost invariant = { λ f. IsWordSize Y × (length f.octets.items ≡ 16 * Y) };
}

impl<const Y: usize> Frame<Y> {
    /// A frame of zeros.
    pub fn new(alloc: Global) -> Result<Self, NoMemory>
        requires { IsWordSize Y }
        ensures { IfOk result (λ frame. frame ≡ replicate (16 * Y) 0) }
    {
        Ok(Frame {
            octets: vec![in alloc; 0; 16 * Y]?,
        })
    }

    /// Makes all octets 0.
    pub fn clear(&mut self)
        ensures { self.new ≡ replicate (16 * Y) 0 }
    {
        self.octets.as_mut_slice().fill(0);
    }

    /// All octets.
    pub fn octets(&self) -> &[u8]
        ensures value { result.now ≡ self.now }
        ensures length { length result.now ≡ 16 * Y }
    {
        self.octets.as_slice()
    }

    /// Replaces all octets.
    pub fn set_octets(&mut self, octets: &[u8])
        requires { length octets.now ≡ 16 * Y }
        ensures { self.new ≡ octets.now }
    {
        self.octets.as_mut_slice().copy_from_slice(octets);
    }

    /// The control word.
    pub fn control(&self) -> &[u8]
        ensures value { result.now ≡ take Y self.now }
        ensures length { length result.now ≡ Y }
    {
        &self.octets.as_slice()[..Y]
    }

    /// Replaces the control word.
    pub fn set_control(&mut self, word: &[u8])
        requires { length word.now ≡ Y }
        ensures { self.new ≡ word.now ++ drop Y self.old }
    {
        replace_front(self.octets.as_mut_slice(), word);
    }

    /// IQ bit x.
    pub fn bit(&self, x: usize) -> bool
        requires { x < 120 * Y }
        ensures { IsTrue result ↔ (iq_bit Y self.now x ≡ 1) }
    {
        self.octets[Y + x / 8] >> (x % 8) & 1 == 1
    }

    /// Copies `count` bits, from bit `from` of `bits` on, to the IQ bits from `x` on. All other bits of the frame stay.
    pub fn put_bits(&mut self, x: usize, bits: &[u8], from: usize, count: usize)
        requires room { x + count ≤ 120 * Y }
        requires source { from + count ≤ 8 * length bits.now }
        ensures { CopiesBits bits.now from self.old self.new (8 * Y + x) count }
    {
        copy_bits(bits, from, self.octets.as_mut_slice(), 8 * Y + x, count);
    }

    /// Copies `count` IQ bits, from `x` on, to the bits of `out` from bit `at` on. All other bits of `out` stay.
    pub fn get_bits(&self, x: usize, count: usize, out: &mut [u8], at: usize)
        requires source { x + count ≤ 120 * Y }
        requires room { at + count ≤ 8 * length out.old }
        ensures { CopiesBits self.now (8 * Y + x) out.old out.new at count }
    {
        copy_bits(self.octets.as_slice(), 8 * Y + x, out, at, count);
    }
}

// Replaces the first octets.
fn replace_front(octets: &mut [u8], front: &[u8])
    requires { length front.now ≤ length octets.old }
    ensures { octets.new ≡ front.now ++ drop (length front.now) octets.old }
{
    octets[..front.len()].copy_from_slice(front);
}
