//! The bits of a frame that is coming in.

ghost use Rattle.std.specs.Prelude.{◌≡◌, ℕ, ◌+◌, ◌*◌, ◌/◌, ◌^◌, ◌<◌, ◌≤◌, [], ◌∷◌, ◌++◌, length, take, slice_index_or, true, IfOk};
ghost use Rattle.hdlc_channel.specs.Bits.{low_bits, octets_of};
ghost use Rattle.hdlc_channel.specs.Content.{IsBuffer};
ghost use Rattle.hdlc_channel.specs.Reader.{before_flag};

use link_base::NoMemory;
use std::alloc::Global;
use std::marker::Model;
use std::mem;

/// The most bits that are collected: those of the longest frame with its sequence, and seven of a flag.
pub(crate) const MOST_BITS: u32 = 12_023;

/// The whole octets of so many bits.
pub(crate) const MOST_OCTETS: usize = 1502;

/// Bits that were collected one after another, at most `MOST_BITS`.
#[derive(Drop)]
pub(crate) struct Content {
    octets: Vec<u8>,
    // How many bits there are.
    len: u32,
    // The bits after the last whole octet.
    last: u32,
}

impl Model for Content {
    ghost use Rattle.std.specs.Prelude.{List, Bool};

    ghost Value = { List Bool };

    ghost use Rattle.hdlc_channel.specs.Content.{content_bits, IsContent};

    ghost view = { λ c. content_bits c.octets.items c.len c.last };

    ghost invariant = { λ c. IsContent c.octets.items c.len c.last };
}

impl Content {
    /// No bits, with room for `MOST_BITS`.
    pub(crate) fn begin(alloc: Global) -> Result<Content, NoMemory>
        ensures { IfOk result (λ c. c ≡ []) }
    {
        let octets = vec![in alloc; 0; MOST_OCTETS]?;
        Ok(Content {
            octets,
            len: 0,
            last: 0,
        })
    }

    pub(crate) fn len(&self) -> u32
        ensures len { result ≡ length self.now }
        ensures within { result ≤ 12023 }
    {
        self.len
    }

    pub(crate) fn clear(&mut self)
        ensures { self.new ≡ [] }
    {
        self.len = 0;
        self.last = 0;
    }

    /// Appends the lowest `count` bits of `bits`.
    pub(crate) fn append(&mut self, bits: u32, count: u32)
        requires few { count ≤ 8 }
        requires small { bits < 2 ^ count }
        requires room { length self.old + count ≤ 12023 }
        ensures { self.new ≡ self.old ++ low_bits count bits }
    {
        let had = self.len % 8;
        let last = self.last + (bits << had);
        if had + count < 8 {
            self.last = last;
        } else {
            self.octets[(self.len / 8) as usize] = (last & 0xff) as u8;
            self.last = last >> 8;
        }
        self.len += count;
    }

    pub(crate) fn push(&mut self, bit: bool)
        requires { length self.old < 12023 }
        ensures { self.new ≡ self.old ++ bit ∷ [] }
    {
        self.append(u32::from(bit), 1);
    }

    /// The bit at a place.
    fn bit(&self, place: u32) -> bool
        requires { place < length self.now }
        ensures { result ≡ slice_index_or self.now place true }
    {
        let octet = if place / 8 < self.len / 8 {
            u32::from(self.octets[(place / 8) as usize])
        } else {
            self.last
        };
        octet >> (place % 8) & 1 == 1
    }

    /// At the end of a flag, how many bits were collected before its 0 and six 1s. Its 0 may have been dropped as stuffing.
    pub(crate) fn len_before_flag(&self) -> u32
        ensures front { take result self.now ≡ before_flag self.now }
        ensures within { result ≤ length self.now }
    {
        let len = self.len().saturating_sub(6);
        if len > 0 && !self.bit(len - 1) {
            len - 1
        } else {
            len
        }
    }

    /// The whole octets.
    pub(crate) fn octets(&self) -> &[u8]
        ensures len { length result.now ≡ length self.now / 8 }
        ensures octets { (k : ℕ) → 8 * k ≤ length self.now → octets_of (take (8 * k) self.now) ≡ take k result.now }
    {
        &self.octets[..(self.len / 8) as usize]
    }

    /// Puts the whole octets in the place of others, and begins anew with no bits.
    pub(crate) fn exchange(&mut self, other: &mut Vec<u8>)
        requires { IsBuffer other.old.items }
        ensures empty { self.new ≡ [] }
        ensures room { IsBuffer other.new.items }
        ensures octets { (k : ℕ) → 8 * k ≤ length self.old → octets_of (take (8 * k) self.old) ≡ take k other.new.items }
    {
        mem::swap(&mut self.octets, other);
        self.len = 0;
        self.last = 0;
    }
}
