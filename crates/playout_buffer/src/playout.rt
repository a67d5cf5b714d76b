// The payloads of a flow from their arrival to the play of their last frame, in a ring of slots.
ghost use Rattle.std.specs.Prelude.{◌≡◌, ◌+◌, ◌*◌, ◌<◌, ◌≤◌, ◌^◌, ◌++◌, length, take, drop, IfOk};
ghost use Rattle.std.specs.FinMap.{empty, retain_keys, len};
ghost use Rattle.std.specs.Option.{ForSome, option_copied};
ghost use Rattle.playout_buffer.specs.Candidate.{candidate_of};
ghost use Rattle.playout_buffer.specs.Conditions.{IsWindow, payload_octets};
ghost use Rattle.playout_buffer.specs.Held.{is_awaited, put_answer, payloads_with, part_in};

use crate::played_frame::PlayedFrame;
use crate::{Put, Window};
use link_base::NoMemory;
use std::alloc::Global;
use std::marker::Model;

/// The payloads of a flow from their arrival to the play of their last frame.
///
/// Contracts see the window that it was begun with, the present tick, and which payload is held of which packet. Packet i
/// has the slot i mod cap. The packets that may have to be held at a tick have different slots, so a payload that
/// arrives finds its slot empty or with a packet that is past.
#[derive(Debug, Drop)]
pub struct Playout {
    window: Window,
    // The present tick.
    present: u64,
    // How many packets have windows that have opened.
    opened: u64,
    // The frame that is played at the present tick. Before tick `playout` none is, and this is frame 0.
    played: PlayedFrame,
    // Of each slot, one more than the number of its packet, or 0 where it is empty.
    numbers: Vec<u64>,
    // The payloads of the slots, one after another.
    octets: Vec<u8>,
}

impl Model for Playout {
    ghost use Rattle.playout_buffer.specs.View.{PlayoutView, view_code};

    ghost Value = { PlayoutView };

    ghost coded = { view_code };

    ghost use Rattle.std.specs.Prelude.{◌≡◌, ◌-◌};
    ghost use Rattle.playout_buffer.specs.Candidate.{packets_opened};
    ghost use Rattle.playout_buffer.specs.PlayedFrame.{IsPlayedFrame};
    ghost use Rattle.playout_buffer.specs.Slots.{held_in, AreSlots};

    ghost view = { λ p. record { window = p.window; tick = p.present; held = held_in p.window p.present p.numbers.items p.octets.items } };

    ghost invariant = { λ p. AreSlots p.window p.present p.numbers.items p.octets.items × (p.opened ≡ packets_opened p.window p.present)
        × IsPlayedFrame p.window.frames p.window.cap (p.present - p.window.playout) p.played };
}

impl Playout {
    /// A buffer for the packets of a window, at tick 0. All its memory is taken here: room for the `cap` payloads.
    pub fn begin(alloc: Global, window: Window) -> Result<Playout, NoMemory>
        requires { IsWindow window }
        ensures { IfOk result (λ p. p ≡ record { window = window; tick = 0; held = empty }) }
    {
        let slots = window.cap as usize;
        let payload = window.frames as usize * window.octets;
        Ok(Playout {
            window,
            present: 0,
            opened: u64::from(1u32.saturating_sub(window.lmin) / window.frames),
            played: PlayedFrame::first(),
            numbers: vec![in alloc; 0; slots]?,
            octets: vec![in alloc; 0; slots * payload]?,
        })
    }

    /// Takes a payload that arrives at the present tick under the sequence number `seq`, and says what was done with it.
    pub fn put(&mut self, seq: u32, payload: &[u8]) -> Put
        requires { length payload.now ≡ payload_octets self.old.window }
        ensures answer { result ≡ put_answer self.old.held (candidate_of self.old.window self.old.tick seq) }
        ensures held { self.new ≡ record self.old { held = payloads_with self.old.held (candidate_of self.old.window self.old.tick seq) payload.now } }
        ensures room { len self.new.held ≤ self.new.window.cap }
    {
        let Some(number) = self.window.candidate(self.present, self.opened, seq) else {
            return Put::Outside;
        };
        let slot = (number % u64::from(self.window.cap)) as usize;
        if self.numbers[slot] == number + 1 {
            return Put::Repeat(number);
        }
        self.numbers[slot] = number + 1;
        write_at(self.octets.as_mut_slice(), slot * payload.len(), payload);
        Put::Taken(number)
    }

    /// The octets of frame `n`, which is played at the present tick, or none where its packet did not arrive.
    pub fn frame(&self, n: u64) -> Option<&[u8]>
        requires { n + self.now.window.playout ≡ self.now.tick }
        ensures octets { option_copied result ≡ part_in self.now.window self.now.held n }
        ensures length { ForSome result (λ octets. length octets.now ≡ self.now.window.octets) }
    {
        let Window { frames, octets, .. } = self.window;
        let PlayedFrame {
            number,
            slot,
            place,
        } = self.played;
        if self.numbers[slot] != number + 1 {
            return None;
        }
        let start = (slot * frames as usize + place as usize) * octets;
        Some(piece_at(self.octets.as_slice(), start, octets))
    }

    /// Goes to the next tick, and lets go of the packets of which the last frame was played.
    pub fn advance(&mut self)
        requires { self.old.tick < 2 ^ 41 }
        ensures { self.new ≡ record self.old { tick = self.old.tick + 1; held = retain_keys self.old.held (is_awaited self.old.window (self.old.tick + 1)) } }
    {
        self.played = self.played.at_next_tick(self.window, self.present);
        self.present += 1;
        self.opened = self.window.opened(self.present, self.opened);
    }

    /// The present tick.
    pub fn tick(&self) -> u64
        ensures { result ≡ self.now.tick }
    {
        self.present
    }
}

// Writes a piece over the octets from `start` on.
fn write_at(octets: &mut [u8], start: usize, piece: &[u8])
    requires { start + length piece.now ≤ length octets.old }
    ensures { octets.new ≡ take start octets.old ++ piece.now ++ drop (start + length piece.now) octets.old }
{
    octets[start..start + piece.len()].copy_from_slice(piece);
}

// So many octets from `start` on.
fn piece_at(octets: &[u8], start: usize, count: usize) -> &[u8]
    requires { start + count ≤ length octets.now }
    ensures piece { result.now ≡ take count (drop start octets.now) }
    ensures length { length result.now ≡ count }
{
    &octets[start..start + count]
}
