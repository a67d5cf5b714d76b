//! Frames of the fast channel out of its bits.

ghost use Rattle.std.specs.Prelude.{◌≡◌, ℕ, ◌+◌, ◌%◌, ◌^◌, ◌<◌, ◌≤◌, length, Bool, None, List, [], ◌∷◌, ◌++◌, IfOk};
ghost use Rattle.ethernet_channel.specs.Events.{event_last, events_at, events_in, found_after, last_frame};
ghost use Rattle.ethernet_channel.specs.Keeps.{StandsFor};
ghost use Rattle.ethernet_channel.specs.Bits.{octet_bits};
ghost use Rattle.std.specs.Option.{option_to_list};
ghost use Rattle.ethernet_channel.specs.Steps.{Ran, IsInFrame, IsAfterBits, IsPastEvent, run, run_events, takes, with_bit, with_bits, hunts, takes_part, takes_group, takes_preamble, takes_nibble, takes_end, stops};
ghost use Rattle.ethernet_channel.specs.Codes.{nibble_of};

use crate::FastEvent;
use crate::groups::{DELIMITER, FIVE, RESET, START, TERMINATE, nibble_of, reversed};
use crate::nibbles::Nibbles;
use link_base::NoMemory;
use std::alloc::Global;
use std::marker::Model;
use std::mem;

/// The nibbles 5 of a preamble after J K.
const PREAMBLE: u8 = 13;
/// The nibbles of a longest frame.
const LONGEST: usize = 3044;
/// The numbers of ten bits, which are kept.
const RECENT: u16 = 1 << 10;
/// The numbers of the five bits of a group.
const GROUP: u16 = 1 << 5;

/// An octet of 1s, as the channel has between frames.
const IDLE: u8 = 0xff;
/// Ten 1s.
const IDLE_BITS: u16 = 0x3ff;

/// Where a reader is within a frame.
#[derive(Clone, Copy, Debug, PartialEq, Eq)]
pub(crate) enum Step {
    /// Looking for J K.
    Hunting,
    /// After J K.
    Preamble,
    /// After the first D.
    Data,
    /// After T.
    End,
}

/// Finds the frames of the fast channel in its bits, which are handed in one after another.
#[derive(Drop)]
pub struct FastReader {
    step: Step,
    /// The last ten bits since the last event, the first of them highest.
    recent: u16,
    /// How many of them are a part of a group.
    bits: u8,
    /// The nibbles 5 after J K.
    fives: u8,
    /// The nibbles of the frame so far.
    nibbles: Nibbles,
    /// The nibbles of the last frame.
    frame: Nibbles,
}

impl Model for FastReader {
    ghost use Rattle.std.specs.Prelude.{◌<◌, ◌≤◌};
    ghost use Rattle.ethernet_channel.specs.Keeps.{Kept};

    ghost Value = { Kept };

    ghost view = { λ r. record { step = r.step; recent = r.recent; bits = r.bits; fives = r.fives; nibbles = r.nibbles; frame = r.frame } };

    ghost invariant = { λ r. (r.recent < 1024) × (r.bits < 5) × (r.fives ≤ 13) };
}

impl FastReader {
    /// A reader that no bit was handed to.
    pub fn begin(alloc: Global) -> Result<FastReader, NoMemory>
        ensures { IfOk result (λ reader. StandsFor reader []) }
    {
        Ok(FastReader {
            step: Step::Hunting,
            recent: 0,
            bits: 0,
            fives: 0,
            nibbles: Nibbles::new(alloc)?,
            frame: Nibbles::new(alloc)?,
        })
    }

    /// Begins anew, as though no bit had been handed in.
    pub fn restart(&mut self)
        ensures { StandsFor self.new [] }
    {
        self.step = Step::Hunting;
        self.recent = 0;
        self.frame.clear();
    }

    /// Takes the next bit of the channel. `None` means that this bit completes nothing.
    pub fn push(&mut self, bit: bool) -> Option<FastEvent>
        ensures answer { (bits : List Bool) → StandsFor self.old bits → result ≡ event_last (bits ++ bit ∷ []) }
        ensures stands { (bits : List Bool) → StandsFor self.old bits → StandsFor self.new (bits ++ bit ∷ []) }
    {
        self.take_bit(bit)
    }

    /// Takes the next eight bits of the channel, those of an octet from its lowest on. At most one of them completes an
    /// event, since a frame and its event take up more bits. It is eight times `push`, at once.
    pub fn push_octet(&mut self, octet: u8) -> Option<FastEvent>
        ensures answer { (bits : List Bool) → StandsFor self.old bits
            → events_in (found_after bits (octet_bits octet)) ≡ option_to_list result }
        ensures stands { (bits : List Bool) → StandsFor self.old bits → StandsFor self.new (bits ++ octet_bits octet) }
    {
        self.take_octet(octet)
    }

    /// The octets of the last frame. There are none before the first.
    pub fn frame(&self) -> &[u8]
        ensures frame { (bits : List Bool) → StandsFor self.now bits → result.now ≡ last_frame (events_at bits) }
        ensures short { length result.now ≤ 1522 }
    {
        self.frame.octets()
    }

    #[tactic(auto, unfolding(crate::specs::Steps::takes))]
    fn take_bit(&mut self, bit: bool) -> Option<FastEvent>
        ensures event { result ≡ (takes self.old bit).event }
        ensures kept { self.new ≡ (takes self.old bit).kept }
    {
        self.keep(bit);
        match self.step {
            Step::Hunting => {
                self.hunt();
                None
            }
            Step::Preamble | Step::Data | Step::End => self.take_part(),
        }
    }

    fn take_octet(&mut self, octet: u8) -> Option<FastEvent>
        ensures event { run_events self.old (octet_bits octet) ≡ option_to_list result }
        ensures kept { self.new ≡ run self.old (octet_bits octet) }
    {
        if self.step == Step::Hunting {
            if octet == IDLE && self.recent == IDLE_BITS {
                return None;
            }
            self.hunt_octet(octet)
        } else {
            self.take_groups(reversed(octet))
        }
    }

    /// Takes the bits of an octet one by one.
    fn hunt_octet(&mut self, octet: u8) -> Option<FastEvent>
        ensures event { run_events self.old (octet_bits octet) ≡ option_to_list result }
        ensures kept { self.new ≡ run self.old (octet_bits octet) }
    {
        let mut found = None;
        let mut rest = octet;
        for place in 0..8u32 {
            let event = self.take_bit(rest % 2 == 1);
            rest /= 2;
            if event.is_some() {
                found = event;
            }
        }
        found
    }

    /// Takes eight bits within a frame, the first of them highest: those of the group in hand, and then the others.
    fn take_groups(&mut self, bits: u8) -> Option<FastEvent>
        requires { IsInFrame self.old }
        ensures { Ran self.old self.new result 8 bits }
    {
        let left = self.bits + 3;
        let event = self.take_bits(u16::from(bits >> left), 8 - left);
        if event.is_some() {
            self.pass_over(u16::from(bits % (1 << left)));
            return event;
        }
        self.take_rest(bits % (1 << left), left)
    }

    /// Takes the last bits of an octet within a frame, of which the first begins a group.
    fn take_rest(&mut self, bits: u8, left: u8) -> Option<FastEvent>
        requires inside { IsInFrame self.old }
        requires whole { self.old.bits ≡ 0 }
        requires some { 3 ≤ left }
        requires few { left ≤ 7 }
        requires small { bits < 2 ^ left }
        ensures { Ran self.old self.new result left bits }
    {
        if left <= 5 {
            return self.take_bits(u16::from(bits), left);
        }
        let last = left - 5;
        let event = self.take_bits(u16::from(bits >> last), 5);
        let rest = u16::from(bits % (1 << last));
        if event.is_some() {
            self.pass_over(rest);
            return event;
        }
        self.take_bits(rest, last)
    }

    /// Takes bits of the group in hand, the first of them highest.
    fn take_bits(&mut self, part: u16, count: u8) -> Option<FastEvent>
        requires inside { IsInFrame self.old }
        requires some { 1 ≤ count }
        requires few { self.old.bits + count ≤ 5 }
        requires small { part < 2 ^ count }
        ensures ran { Ran self.old self.new result count part }
        ensures after { IsAfterBits result self.new ((self.old.bits + count) % 5) }
    {
        self.keep_all(part, count);
        if self.bits + count < 5 {
            self.bits += count;
            return None;
        }
        let group = (self.recent % GROUP) as u8;
        self.bits = 0;
        self.take_group(group)
    }

    /// Keeps bits among the last ten.
    fn keep_all(&mut self, part: u16, count: u8)
        requires few { count ≤ 5 }
        requires small { part < 2 ^ count }
        ensures { self.new ≡ with_bits self.old count part }
    {
        self.recent = ((self.recent << count) + part) % RECENT;
    }

    /// Keeps the few bits after an event.
    fn pass_over(&mut self, part: u16)
        requires past { IsPastEvent self.old 1 }
        requires few { part < 128 }
        ensures { (count : ℕ) → count ≤ 7 → part < 2 ^ count → Ran self.old self.new None count part }
    {
        self.recent = part;
    }

    /// Keeps a bit among the last ten.
    fn keep(&mut self, bit: bool)
        ensures { self.new ≡ with_bit self.old bit }
    {
        self.recent = (2 * self.recent + u16::from(bit)) % RECENT;
    }

    /// Counts the last bit as a part of a group.
    fn take_part(&mut self) -> Option<FastEvent>
        ensures event { result ≡ (takes_part self.old.step self.old).event }
        ensures kept { self.new ≡ (takes_part self.old.step self.old).kept }
    {
        if self.bits < 4 {
            self.bits += 1;
            return None;
        }
        self.bits = 0;
        self.take_group((self.recent % GROUP) as u8)
    }

    /// Begins a frame where the last ten bits are J K.
    #[tactic(auto, unfolding(crate::specs::Codes::start))]
    fn hunt(&mut self)
        ensures { self.new ≡ (hunts self.old).kept }
    {
        if self.recent == START {
            self.step = Step::Preamble;
            self.bits = 0;
            self.fives = 0;
        }
    }

    /// Takes a whole group.
    fn take_group(&mut self, group: u8) -> Option<FastEvent>
        requires { group < 32 }
        ensures event { result ≡ (takes_group self.old.step self.old group).event }
        ensures kept { self.new ≡ (takes_group self.old.step self.old group).kept }
    {
        match self.step {
            Step::Hunting => None,
            Step::Preamble => self.take_preamble(group),
            Step::Data => self.take_data(group),
            Step::End => self.take_end(group),
        }
    }

    /// Takes a group before the first D.
    #[tactic(auto, unfolding(crate::specs::Codes::five, crate::specs::Codes::delimiter, crate::specs::Codes::code_of, crate::specs::Codes::nibble_texts))]
    fn take_preamble(&mut self, group: u8) -> Option<FastEvent>
        ensures event { result ≡ (takes_preamble self.old group).event }
        ensures kept { self.new ≡ (takes_preamble self.old group).kept }
    {
        if group == FIVE && self.fives != PREAMBLE {
            self.fives += 1;
            return None;
        }
        if group == DELIMITER {
            self.step = Step::Data;
            self.nibbles.clear();
            return None;
        }
        self.stop(FastEvent::BadPreamble)
    }

    /// Takes a group after the first D.
    #[tactic(auto, unfolding(crate::specs::Codes::terminate))]
    fn take_data(&mut self, group: u8) -> Option<FastEvent>
        requires { group < 32 }
        ensures event { result ≡ (takes_nibble self.old group (nibble_of group)).event }
        ensures kept { self.new ≡ (takes_nibble self.old group (nibble_of group)).kept }
    {
        if let Some(nibble) = nibble_of(group) {
            return self.take_nibble(nibble);
        }
        if group == TERMINATE {
            self.step = Step::End;
            return None;
        }
        self.stop(FastEvent::BadGroup { code: group })
    }

    fn take_nibble(&mut self, nibble: u8) -> Option<FastEvent>
        requires { nibble < 16 }
        ensures event { result ≡ (takes_nibble self.old 0 (Some nibble)).event }
        ensures kept { self.new ≡ (takes_nibble self.old 0 (Some nibble)).kept }
    {
        if self.nibbles.len() == LONGEST {
            return self.stop(FastEvent::TooLong);
        }
        self.nibbles.push(nibble);
        None
    }

    /// Takes a group after T.
    #[tactic(auto, unfolding(crate::specs::Codes::reset))]
    fn take_end(&mut self, group: u8) -> Option<FastEvent>
        ensures event { result ≡ (takes_end self.old group).event }
        ensures kept { self.new ≡ (takes_end self.old group).kept }
    {
        if group != RESET {
            return self.stop(FastEvent::NoEnd { code: group });
        }
        let nibbles = self.nibbles.len();
        if nibbles == 0 {
            return self.stop(FastEvent::Empty);
        }
        if nibbles % 2 == 1 {
            return self.stop(FastEvent::Odd);
        }
        mem::swap(&mut self.nibbles, &mut self.frame);
        self.stop(FastEvent::Frame)
    }

    /// Answers an event, after which no earlier bit counts.
    fn stop(&mut self, event: FastEvent) -> Option<FastEvent>
        ensures event { result ≡ Some event }
        ensures kept { self.new ≡ (stops event self.old).kept }
    {
        self.step = Step::Hunting;
        self.recent = 0;
        self.bits = 0;
        Some(event)
    }
}
