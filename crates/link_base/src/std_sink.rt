// Standard output: the trusted edge, of which no content is told.
ghost use Rattle.std.specs.Prelude.{◌≡◌, false, []};

use crate::{Failed, Sink};
use std::io::{self, Write};

/// The standard output of the program. It counts its failures and tells no content.
#[derive(Drop)]
pub struct StdSink<'a> {
    rt: &'a HostRuntime,
    faults: u64,
}

impl<'a> StdSink<'a> {
    /// The standard output of this program, with no failure so far.
    pub fn new(rt: &'a HostRuntime) -> StdSink<'a>
        ensures { result.faults ≡ 0 }
    {
        StdSink { rt, faults: 0 }
    }
}

impl Sink for StdSink<'_> {
    ghost taken = { λ s. record { tells = false; written = []; faults = s.faults } };

    fn write(&mut self, piece: &[u8]) -> Result<usize, Failed> {
        if piece.is_empty() {
            return Ok(0);
        }
        match io::writer(self.rt).write(piece) {
            Ok(count) if count > 0 => Ok(count),
            _ => {
                self.faults = self.faults.saturating_add(1);
                Err(Failed)
            }
        }
    }
}
