// A sink in memory.
ghost use Rattle.std.specs.Prelude.{◌≡◌, ◌<◌, ◌≤◌, ◌+◌, ◌↔◌, [], ◌++◌, length, take, vec_capacity, min, Ok, IsErr, IfOk, OnErr};
ghost use Rattle.link_base.specs.Faults.{HasCause};
ghost use Rattle.link_base.specs.Sink.{Appends};
ghost use Rattle.link_base.specs.MemSink.{sink_taken};

use crate::{Failed, NoMemory, Sink};
use std::alloc::Global;
use std::marker::Model;

/// A sink that keeps what is written, with room for so many octets.
#[derive(Debug, Drop)]
pub struct MemSink {
    written: Vec<u8>,
    room: usize,
    piece: usize,
    faults: u64,
}

impl Model for MemSink {
    ghost use Rattle.std.specs.Prelude.{◌<◌, ◌≤◌, length, vec_capacity};
    ghost use Rattle.link_base.specs.MemSink.{SinkMemory};

    ghost Value = { SinkMemory };

    ghost view = { λ a. record { written = a.written.items; room = a.room; piece = a.piece; faults = a.faults } };

    ghost invariant = { λ a. (length a.written.items ≤ a.room) × (a.room ≤ vec_capacity a.written) × (0 < a.piece) };
}

impl MemSink {
    /// An empty sink with room for `room` octets, which takes at most `piece` of them in one call.
    pub fn new(alloc: Global, room: usize, piece: usize) -> Result<MemSink, NoMemory>
        requires { 0 < piece }
        ensures { IfOk result (λ sink. sink ≡ record { written = []; room = room; piece = piece; faults = 0 }) }
    {
        Ok(MemSink {
            written: Vec::with_capacity(alloc, room)?,
            room,
            piece,
            faults: 0,
        })
    }

    /// What was written.
    pub fn octets(&self) -> &[u8]
        ensures { result.now ≡ self.now.written }
    {
        self.written.as_slice()
    }
}

// Appends octets for which room is reserved.
fn append(written: &mut Vec<u8>, octets: &[u8])
    requires { length written.old.items + length octets.now ≤ vec_capacity written.old }
    ensures items { written.new.items ≡ written.old.items ++ octets.now }
    ensures reserved { vec_capacity written.old ≤ vec_capacity written.new }
{
    written.extend_from_slice(octets).unwrap();
}

impl Sink for MemSink {
    ghost taken = { sink_taken };

    fn write(&mut self, piece: &[u8]) -> Result<usize, Failed>
        ensures cause { HasCause self.old.faults self.new.faults result }
        ensures bound { IfOk result (λ k. k ≤ length piece.now) }
        ensures some { IfOk result (λ k. 0 < length piece.now → 0 < k) }
        ensures empty { length piece.now ≡ 0 → result ≡ Ok 0 }
        ensures appends { IfOk result (λ k. Appends (take k piece.now) (sink_taken self.old) (sink_taken self.new)) }
        ensures fails { OnErr result (Appends (take 0 piece.now) (sink_taken self.old) (sink_taken self.new)) }
        ensures full { IsErr result ↔ ((0 < length piece.now) × (length self.old.written ≡ self.old.room)) }
        ensures pieces { IfOk result (λ k. k ≤ self.old.piece) }
        ensures within { length self.new.written ≤ self.new.room }
        ensures room { self.new.room ≡ self.old.room }
        ensures piece { self.new.piece ≡ self.old.piece }
    {
        let free = self.room - self.written.len();
        let count = piece.len().min(self.piece).min(free);
        if count == 0 && !piece.is_empty() {
            self.faults = self.faults.saturating_add(1);
            return Err(Failed);
        }
        append(&mut self.written, &piece[..count]);
        Ok(count)
    }
}
