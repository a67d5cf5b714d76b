//! The nibbles of a frame, gathered in octets.

ghost use Rattle.std.specs.Prelude.{◌≡◌, ◌<◌, ◌≤◌, [], ◌∷◌, ◌++◌, length, IfOk};
ghost use Rattle.ethernet_channel.specs.Events.{octets_of};

use link_base::NoMemory;
use std::alloc::Global;
use std::marker::Model;

/// Octets of a longest frame: 1,500 of data, the header, a VLAN tag and the FCS.
const LONGEST: usize = 1522;

/// Nibbles of a frame, of each octet the low one first.
#[derive(Drop)]
pub(crate) struct Nibbles {
    octets: Vec<u8>,
    /// How many nibbles of the octets count.
    count: usize,
}

impl Model for Nibbles {
    ghost use Rattle.std.specs.Prelude.{◌≡◌, ◌≤◌, ◌*◌, ℕ, List, length, take};
    ghost use Rattle.ethernet_channel.specs.Nibbles.{nibbles_in};

    ghost Value = { List ℕ };

    ghost view = { λ n. take n.count (nibbles_in n.octets.items) };

    ghost invariant = { λ n. (length n.octets.items ≡ 1522) × (n.count ≤ 3044) };
}

impl Nibbles {
    /// No nibble, with room for a longest frame.
    pub(crate) fn new(alloc: Global) -> Result<Nibbles, NoMemory>
        ensures { IfOk result (λ nibbles. nibbles ≡ []) }
    {
        Ok(Nibbles {
            octets: vec![in alloc; 0; LONGEST]?,
            count: 0,
        })
    }

    pub(crate) fn len(&self) -> usize
        ensures len { result ≡ length self.now }
        ensures within { result ≤ 3044 }
    {
        self.count
    }

    pub(crate) fn clear(&mut self)
        ensures { self.new ≡ [] }
    {
        self.count = 0;
    }

    /// Appends a nibble.
    pub(crate) fn push(&mut self, nibble: u8)
        requires small { nibble < 16 }
        requires room { length self.old < 3044 }
        ensures { self.new ≡ self.old ++ nibble ∷ [] }
    {
        let place = self.count / 2;
        self.octets[place] = if self.count % 2 == 0 {
            nibble
        } else {
            self.octets[place] % 16 + 16 * nibble
        };
        self.count += 1;
    }

    /// The whole octets.
    pub(crate) fn octets(&self) -> &[u8]
        ensures octets { result.now ≡ octets_of self.now }
        ensures short { length result.now ≤ 1522 }
    {
        &self.octets[..self.count / 2]
    }
}
