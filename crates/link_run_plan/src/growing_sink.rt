// A sink in memory that grows.
ghost use Rattle.std.specs.Prelude.{◌≡◌, [], true};

use link_base::{Failed, Sink};
use std::alloc::Global;
use std::marker::Model;

/// A sink that keeps all that is written to it. A write fails where memory is wanting.
#[derive(Debug, Drop)]
pub(crate) struct GrowingSink {
    octets: Vec<u8>,
    faults: u64,
}

impl Model for GrowingSink {
    ghost use Rattle.std.specs.Prelude.{true};
    ghost use Rattle.link_base.specs.Sink.{Taken};

    ghost Value = { Taken };

    ghost view = { λ sink. record { tells = true; written = sink.octets.items; faults = sink.faults } };
}

impl GrowingSink {
    /// An empty sink.
    pub(crate) fn new(alloc: Global) -> GrowingSink
        ensures { result ≡ record { tells = true; written = []; faults = 0 } }
    {
        GrowingSink {
            octets: Vec::new(alloc),
            faults: 0,
        }
    }

    /// What was written.
    pub(crate) fn into_octets(self) -> Vec<u8>
        ensures { result.items ≡ self.written }
    {
        self.octets
    }
}

impl Sink for GrowingSink {
    ghost taken = { λ sink. sink };

    fn write(&mut self, piece: &[u8]) -> Result<usize, Failed> {
        if self.octets.extend_from_slice(piece).is_err() {
            self.faults = self.faults.saturating_add(1);
            return Err(Failed);
        }
        Ok(piece.len())
    }
}
