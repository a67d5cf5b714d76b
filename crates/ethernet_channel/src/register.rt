//! The bits that are laid out for the line.

ghost use Rattle.std.specs.Prelude.{◌≡◌, ◌+◌, ◌^◌, ◌<◌, ◌≤◌, [], ◌++◌, length};
ghost use Rattle.ethernet_channel.specs.Bits.{low_bits, octet_bits};

use std::marker::Model;

/// Some bits, of which the lowest is the first.
#[derive(Drop)]
pub(crate) struct Register {
    bits: u32,
    count: u32,
}

impl Model for Register {
    ghost use Rattle.std.specs.Prelude.{◌^◌, ◌<◌, ◌≤◌, Bool, List};
    ghost use Rattle.ethernet_channel.specs.Bits.{low_bits};

    ghost Value = { List Bool };

    ghost view = { λ r. low_bits r.count r.bits };

    ghost invariant = { λ r. (r.count ≤ 22) × (r.bits < 2 ^ r.count) };
}

impl Register {
    pub(crate) fn new(bits: u32, count: u32) -> Register
        requires few { count ≤ 22 }
        requires small { bits < 2 ^ count }
        ensures { result ≡ low_bits count bits }
    {
        Register { bits, count }
    }

    pub(crate) fn len(&self) -> u32
        ensures { result ≡ length self.now }
    {
        self.count
    }

    /// Appends bits.
    pub(crate) fn append(&mut self, bits: u32, count: u32)
        requires room { length self.old < 8 }
        requires few { count ≤ 15 }
        requires small { bits < 2 ^ count }
        ensures { self.new ≡ self.old ++ low_bits count bits }
    {
        self.bits += bits << self.count;
        self.count += count;
    }

    /// Takes the first eight bits out.
    pub(crate) fn take_octet(&mut self) -> u8
        requires { 8 ≤ length self.old }
        ensures { self.old ≡ octet_bits result ++ self.new }
    {
        let octet = (self.bits % 256) as u8;
        self.bits /= 256;
        self.count -= 8;
        octet
    }
}
