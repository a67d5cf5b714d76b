//! The bits that are not yet written, of the item that is being written.

ghost use Rattle.std.specs.Prelude.{◌≡◌, ◌<◌, ◌≤◌, ◌↔◌, [], ◌++◌, IsTrue, length, drop, IfOk};
ghost use Rattle.hdlc_channel.specs.Bits.{octet_bits};
ghost use Rattle.hdlc_channel.specs.SlowText.{flag};
ghost use Rattle.hdlc_channel.specs.SlowStream.{next_item};

use crate::content::MOST_OCTETS;
use crate::frame_queue::FrameQueue;
use crate::laid::Laid;
use crate::stuffing::stuff;
use link_base::NoMemory;
use std::alloc::Global;
use std::marker::Model;

/// What is left of the item that is being written: bits that are laid out for the line, and behind them the octets of a
/// frame's content that are not yet stuffed, with the flag that closes it.
#[derive(Drop)]
pub(crate) struct Outgoing {
    ready: Laid,
    // The 1s in a row after them, at most four.
    ones: usize,
    octets: Vec<u8>,
    // The octets from `at` up to `end` are not yet stuffed. The flag has been laid out where there are none.
    at: usize,
    end: usize,
}

impl Model for Outgoing {
    ghost use Rattle.hdlc_channel.specs.Outgoing.{OutView, out_view, IsOut};

    ghost Value = { OutView };

    ghost view = { λ o. out_view o.ready o.ones o.octets.items o.at o.end };

    ghost invariant = { λ o. IsOut o.ready o.ones o.octets.items o.at o.end };
}

impl Outgoing {
    /// One flag.
    pub(crate) fn begin(alloc: Global) -> Result<Outgoing, NoMemory>
        ensures { IfOk result (λ o. o ≡ record { ready = flag; later = [] }) }
    {
        let octets = vec![in alloc; 0; MOST_OCTETS]?;
        Ok(Outgoing {
            ready: Laid::flag(),
            ones: 0,
            octets,
            at: 0,
            end: 0,
        })
    }

    /// How many bits are laid out.
    pub(crate) fn ready_len(&self) -> u32
        ensures { result ≡ length self.now.ready }
    {
        self.ready.len()
    }

    /// Whether no bits are left behind those that are laid out.
    pub(crate) fn is_last(&self) -> bool
        ensures last { IsTrue result ↔ (self.now.later ≡ []) }
        ensures long { (self.now.later ≡ [] → ⊥) → 8 ≤ length self.now.later }
    {
        self.at == self.end
    }

    /// The first eight bits that are laid out.
    pub(crate) fn take_octet(&mut self) -> u8
        requires { 8 ≤ length self.old.ready }
        ensures octet { self.old.ready ≡ octet_bits result ++ self.new.ready }
        ensures later { self.new.later ≡ self.old.later }
    {
        self.ready.take_octet()
    }

    /// Lays out more of the item, until it has eight bits at least.
    pub(crate) fn stuff(&mut self)
        requires few { length self.old.ready < 8 }
        requires some { self.old.later ≡ [] → ⊥ }
        ensures same { self.new.ready ++ self.new.later ≡ self.old.ready ++ self.old.later }
        ensures enough { 8 ≤ length self.new.ready }
    {
        let stuffed = stuff(self.ones, self.octets[self.at]);
        self.ready.push(stuffed.bits, stuffed.len);
        self.ones = stuffed.ones;
        self.at += 1;
        if self.at == self.end {
            self.ready.push_flag();
        }
    }

    /// Begins the next item, and lays out eight bits at least.
    pub(crate) fn begin_item(&mut self, queue: &mut FrameQueue)
        requires few { length self.old.ready < 8 }
        requires last { self.old.later ≡ [] }
        ensures item { self.new.ready ++ self.new.later ≡ self.old.ready ++ next_item queue.old }
        ensures queue { queue.new ≡ drop 1 queue.old }
        ensures enough { 8 ≤ length self.new.ready }
    {
        let Some(len) = queue.pop_content(&mut self.octets) else {
            self.ready.push_flag();
            return;
        };
        self.ones = 0;
        self.at = 0;
        self.end = len;
        self.stuff();
    }
}
