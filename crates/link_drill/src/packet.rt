// A packet that was sent.
ghost use Rattle.std.specs.Prelude.{◌≡◌, IfOk};

use link_base::NoMemory;
use std::alloc::Global;
use std::marker::Model;

/// The octets of a packet, which contracts see as a list.
#[derive(Drop)]
pub(crate) struct Packet {
    octets: Vec<u8>,
}

impl Model for Packet {
    ghost use Rattle.std.specs.Prelude.{List, ℕ};

    ghost Value = { List ℕ };

    ghost view = { λ packet. packet.octets.items };
}

impl Packet {
    pub(crate) fn copied(alloc: Global, octets: &[u8]) -> Result<Packet, NoMemory>
        ensures { IfOk result (λ packet. packet ≡ octets.now) }
    {
        Ok(Packet {
            octets: Vec::from_slice(alloc, octets)?,
        })
    }

    pub(crate) fn as_slice(&self) -> &[u8]
        ensures { result.now ≡ self.now }
    {
        self.octets.as_slice()
    }
}
