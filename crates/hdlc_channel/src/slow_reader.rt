//! Reads the slow channel.

ghost use Rattle.std.specs.Prelude.{◌≡◌, ◌+◌, ◌*◌, ◌<◌, ◌≤◌, ◌∷◌, ◌++◌, [], Bool, List, length, min, take, drop, IfNone, IfOk, IsTrue, None, Some, true, false};
ghost use Rattle.std.specs.Bool.{OnFalse};
ghost use Rattle.hdlc_channel.specs.Bits.{octet_bits, octets_of};
ghost use Rattle.hdlc_channel.specs.Octet.{TakesBits};
ghost use Rattle.hdlc_channel.specs.SlowText.{content_answer, last_frame, octets_answer, slow_at};
ghost use Rattle.hdlc_channel.specs.Reader.{StandsFor, aborting, closed_content, collecting, flagged, kept_frame, step};

use crate::SlowEvent;
use crate::content::{Content, MOST_BITS, MOST_OCTETS};
use crate::fcs::fcs;
use crate::unstuffing::unstuff;
use link_base::NoMemory;
use std::alloc::Global;
use std::marker::Model;

/// The fewest bits of a content that may be a frame: an octet and its sequence.
const FEWEST_BITS: u32 = 24;

/// How many bits of an octet were taken, and what the last of them completed. None means that no bit of them completed anything.
#[derive(Clone, Copy, Debug, PartialEq, Eq)]
pub struct Taken {
    pub bits: u32,
    pub event: Option<SlowEvent>,
}

/// A reader of the slow channel, which takes one bit after another. By `StandsFor` contracts see the bits that it was
/// handed since its beginning.
#[derive(Drop)]
pub struct SlowReader {
    // The 1s that came last in a row, at most 7, and 7 before the first 0.
    ones: u8,
    // Whether a frame is open.
    in_frame: bool,
    content: Content,
    // The last frame, at the front.
    frame: Vec<u8>,
    frame_len: usize,
}

impl Model for SlowReader {
    ghost use Rattle.hdlc_channel.specs.Reader.{SlowView, reader_view, IsReader};

    ghost Value = { SlowView };

    ghost view = { λ r. reader_view r.ones r.in_frame r.content r.frame.items r.frame_len };

    ghost invariant = { λ r. IsReader r.ones r.content r.frame.items r.frame_len };
}

/// One more 1 in a row, counted up to seven.
fn one_more(ones: u8) -> u8
    ensures { result ≡ min 7 (ones + 1) }
{
    if ones < 7 { ones + 1 } else { 7 }
}

impl SlowReader {
    /// A reader that was handed nothing. All memory that it needs is taken here.
    pub fn begin(alloc: Global) -> Result<SlowReader, NoMemory>
        ensures { IfOk result (λ r. StandsFor r []) }
    {
        let content = Content::begin(alloc)?;
        let frame = vec![in alloc; 0; MOST_OCTETS]?;
        Ok(SlowReader {
            ones: 7,
            in_frame: false,
            content,
            frame,
            frame_len: 0,
        })
    }

    /// Takes the next bit, and says what it completes. None means that it completes nothing.
    pub fn push(&mut self, bit: bool) -> Option<SlowEvent>
        ensures answer { (bits : List Bool) → StandsFor self.old bits → result ≡ slow_at (bits ++ bit ∷ []) (length bits) }
        ensures stands { (bits : List Bool) → StandsFor self.old bits → StandsFor self.new (bits ++ bit ∷ []) }
    {
        self.step(bit)
    }

    /// Takes the bits of an octet from bit `from` on, up to the first that completes something: as a `push` of each of them.
    pub fn push_octet(&mut self, octet: u8, from: u32) -> Taken
        requires { from < 8 }
        ensures some { 1 ≤ result.bits }
        ensures within { from + result.bits ≤ 8 }
        ensures all { IfNone result.event (from + result.bits ≡ 8) }
        ensures takes { (bits : List Bool) → StandsFor self.old bits
            → TakesBits (drop from (octet_bits octet)) result.bits result.event self.new bits }
    {
        if from == 0 && self.take_quiet(octet) {
            return Taken {
                bits: 8,
                event: None,
            };
        }
        self.push_bits(octet, from)
    }

    // The same, one bit after another.
    fn push_bits(&mut self, octet: u8, from: u32) -> Taken
        requires { from < 8 }
        ensures some { 1 ≤ result.bits }
        ensures within { from + result.bits ≤ 8 }
        ensures all { IfNone result.event (from + result.bits ≡ 8) }
        ensures takes { (bits : List Bool) → StandsFor self.old bits
            → TakesBits (drop from (octet_bits octet)) result.bits result.event self.new bits }
    {
        for place in from..8 {
            let event = self.push(octet >> place & 1 == 1);
            if event.is_some() {
                return Taken {
                    bits: place + 1 - from,
                    event,
                };
            }
        }
        Taken {
            bits: 8 - from,
            event: None,
        }
    }

    /// The octets of the last frame, without its sequence. Before the first frame there are none.
    pub fn frame(&self) -> &[u8]
        ensures frame { (bits : List Bool) → StandsFor self.now bits → result.now ≡ last_frame bits (length bits) }
        ensures short { length result.now ≤ 1502 }
    {
        &self.frame[..self.frame_len]
    }

    /// Begins anew, as a reader that was handed nothing.
    pub fn restart(&mut self)
        ensures { StandsFor self.new [] }
    {
        self.ones = 7;
        self.in_frame = false;
        self.content.clear();
        self.frame_len = 0;
    }

    // Takes the bits of an octet at once, where they end no flag, hold no seventh 1 and come to no frame that is too long.
    fn take_quiet(&mut self, octet: u8) -> bool
        ensures quiet { IsTrue result → (bits : List Bool) → StandsFor self.old bits → TakesBits (octet_bits octet) 8 None self.new bits }
        ensures unchanged { OnFalse result (self.new ≡ self.old) }
    {
        if self.in_frame && self.content.len() > MOST_BITS - 8 {
            return false;
        }
        let Some(unstuffed) = unstuff(self.ones, octet) else {
            return false;
        };
        self.ones = unstuffed.ones;
        if !self.in_frame {
            return true;
        }
        self.content.append(unstuffed.bits, unstuffed.len);
        true
    }

    // What the next bit does.
    fn step(&mut self, bit: bool) -> Option<SlowEvent>
        ensures { (self.new, result) ≡ step self.old bit }
    {
        if bit { self.one() } else { self.zero() }
    }

    // What a 1 does.
    fn one(&mut self) -> Option<SlowEvent>
        ensures { (self.new, result) ≡ step self.old true }
    {
        if self.ones == 6 {
            return self.abort();
        }
        self.ones = one_more(self.ones);
        self.collect(true)
    }

    // What a 0 does.
    fn zero(&mut self) -> Option<SlowEvent>
        ensures { (self.new, result) ≡ step self.old false }
    {
        if self.ones == 6 {
            return self.flag();
        }
        let is_stuffing = self.ones == 5;
        self.ones = 0;
        if is_stuffing {
            None
        } else {
            self.collect(false)
        }
    }

    // The seventh 1 in a row.
    fn abort(&mut self) -> Option<SlowEvent>
        ensures { (self.new, result) ≡ aborting self.old }
    {
        let aborted = self.in_frame && self.content.len() > 6;
        self.ones = 7;
        self.in_frame = false;
        if aborted {
            Some(SlowEvent::Aborted)
        } else {
            None
        }
    }

    // A bit that is no stuffing and ends no flag.
    fn collect(&mut self, bit: bool) -> Option<SlowEvent>
        ensures { (self.new, result) ≡ collecting self.old bit }
    {
        if !self.in_frame {
            return None;
        }
        if self.content.len() == MOST_BITS {
            self.in_frame = false;
            return Some(SlowEvent::TooLong);
        }
        self.content.push(bit);
        None
    }

    // The end of a flag.
    fn flag(&mut self) -> Option<SlowEvent>
        ensures { (self.new, result) ≡ flagged self.old }
    {
        let event = self.close();
        self.ones = 0;
        self.in_frame = true;
        self.content.clear();
        event
    }

    // What comes of the content that a flag closes.
    fn close(&mut self) -> Option<SlowEvent>
        ensures answer { result ≡ content_answer (closed_content self.old) }
        ensures frame { self.new.frame ≡ kept_frame result (closed_content self.old) self.old.frame }
    {
        if !self.in_frame {
            return None;
        }
        let bits = self.content.len_before_flag();
        if bits == 0 {
            None
        } else if bits < FEWEST_BITS {
            Some(SlowEvent::TooShort { bits })
        } else if bits % 8 != 0 {
            Some(SlowEvent::Uneven { bits })
        } else {
            Some(self.check((bits / 8) as usize))
        }
    }

    // What comes of so many whole octets.
    fn check(&mut self, len: usize) -> SlowEvent
        requires some { 3 ≤ len }
        requires within { 8 * len ≤ length self.old.collected }
        ensures answer { result ≡ octets_answer (octets_of (take (8 * len) self.old.collected)) }
        ensures frame { self.new.frame ≡ kept_frame (Some result) (take (8 * len) self.old.collected) self.old.frame }
    {
        let octets = &self.content.octets()[..len];
        let got = u16::from(octets[len - 2]) + 256 * u16::from(octets[len - 1]);
        let want = fcs(&octets[..len - 2]);
        if got == want {
            self.content.exchange(&mut self.frame);
            self.frame_len = len - 2;
            SlowEvent::Frame
        } else {
            SlowEvent::BadFcs { got, want }
        }
    }
}
