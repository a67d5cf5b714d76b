//! Bits that are laid out for the line.

ghost use Rattle.std.specs.Prelude.{◌≡◌, ◌+◌, ◌^◌, ◌<◌, ◌≤◌, ◌++◌, length};
ghost use Rattle.hdlc_channel.specs.Bits.{low_bits, octet_bits};
ghost use Rattle.hdlc_channel.specs.SlowText.{flag};

use std::marker::Model;

/// 01111110, the first bit lowest.
const FLAG: u32 = 0x7e;

/// At most 25 bits, the first one lowest.
#[derive(Drop)]
pub(crate) struct Laid {
    bits: u32,
    len: u32,
}

impl Model for Laid {
    ghost use Rattle.std.specs.Prelude.{List, Bool};

    ghost Value = { List Bool };

    ghost use Rattle.hdlc_channel.specs.Bits.{low_bits};
    ghost use Rattle.hdlc_channel.specs.Outgoing.{IsLaid};

    ghost view = { λ l. low_bits l.len l.bits };

    ghost invariant = { λ l. IsLaid l.bits l.len };
}

impl Laid {
    /// A flag.
    pub(crate) fn flag() -> Laid
        ensures { result ≡ flag }
    {
        Laid { bits: FLAG, len: 8 }
    }

    pub(crate) fn len(&self) -> u32
        ensures { result ≡ length self.now }
    {
        self.len
    }

    /// The first eight bits.
    pub(crate) fn take_octet(&mut self) -> u8
        requires { 8 ≤ length self.old }
        ensures { self.old ≡ octet_bits result ++ self.new }
    {
        let octet = (self.bits & 0xff) as u8;
        self.bits >>= 8;
        self.len -= 8;
        octet
    }

    /// Appends the lowest `len` bits of `bits`.
    pub(crate) fn push(&mut self, bits: u32, len: u32)
        requires room { length self.old + len ≤ 25 }
        requires small { bits < 2 ^ len }
        ensures { self.new ≡ self.old ++ low_bits len bits }
    {
        self.bits += bits << self.len;
        self.len += len;
    }

    /// Appends a flag.
    pub(crate) fn push_flag(&mut self)
        requires { length self.old + 8 ≤ 25 }
        ensures { self.new ≡ self.old ++ flag }
    {
        self.push(FLAG, 8);
    }
}
