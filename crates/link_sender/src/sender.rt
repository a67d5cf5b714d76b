// Sends a run: samples are handed in at each tick, and each makes a basic frame.
ghost use Rattle.std.specs.Prelude.{◌≡◌, ◌↔◌, ℕ, ◌+◌, ◌-◌, ◌*◌, ◌<◌, ◌≤◌, ◌^◌, ◌++◌, ◌∷◌, All, IfErr, IfOk, IfSome, IsErr, MatchOption, MatchResult, OnErr, OnOk, map, Some, length, replicate, slice_get, slice_index, slice_set};
ghost use Rattle.carrier_plan.specs.declared.plan.Carrier.{Carrier as OneCarrier};
ghost use Rattle.carrier_plan.specs.declared.plan.Flow.{Flow as OneFlow};
ghost use Rattle.control_words.specs.Announcement.{IsWithinTable};
ghost use Rattle.ethernet_channel.specs.FastStream as fast;
ghost use Rattle.hdlc_channel.specs.SlowStream as slow;
ghost use Rattle.link_sender_blocks.specs.Containers.{mapping_of};
ghost use Rattle.link_sender_blocks.specs.InHand.{begun};
ghost use Rattle.plan_checker.specs.Run.{samples_before, samples_due};
ghost use Rattle.plan_checker.specs.WordSize.{word_size};
ghost use Rattle.sample_bits.specs.Samples.{IsWithin};
ghost use Rattle.link_sender.specs.Frames.{IsFrame};
ghost use Rattle.link_sender.specs.HandedIn.{nothing_yet, with_fast, with_samples, with_slow};
ghost use Rattle.link_sender.specs.Packets.{IsPacket};
ghost use Rattle.link_sender.specs.Senders.{KeepsRun, NamesFirst, OpensBefore, StandsFor, TakesOn};
ghost use Rattle.link_sender.specs.Stream.{Stream};

use crate::channels::Channels;
use crate::containers::make_frame;
use crate::packet_ring::PacketRing;
use crate::packets::{opened_before, packet_rings, put_frame};
use crate::range::Range;
use basic_frame::Frame;
use control_words::{Announce, control_word};
use line_code::Rd;
use link_base::{Full, NoMemory};
use link_sender_blocks::{SamplesInHand, first_outside};
use plan_checker::Checked;
use sample_bits::RawIq;
use std::alloc::Global;
use std::marker::Model;

/// A run of a plan in words of Y octets. Contracts see the plan, the length of the run, what is announced, the next tick and how
/// many samples of each carrier were handed in, and by `StandsFor` the stream that was handed in.
#[derive(Drop)]
pub struct Sender<const Y: usize> {
    checked: Checked,
    // The ticks of the run.
    frames: u64,
    announce: Announce,
    // The next tick.
    next: u64,
    // How many samples of each carrier were handed in.
    handed: Vec<u64>,
    carriers: Vec<SamplesInHand>,
    channels: Channels,
    // The octets of the frame that was made last. Those in no container are never written but for the control word.
    octets: Vec<u8>,
    frame: Frame<Y>,
    // The disparity after that frame, in mode `tunnel`.
    rd: Rd,
    rings: Vec<PacketRing>,
}

impl<const Y: usize> Model for Sender<Y> {
    ghost use Rattle.std.specs.Prelude.{◌≡◌};
    ghost use Rattle.plan_checker.specs.WordSize.{word_size};
    ghost use Rattle.link_sender.specs.Senders.{IsSender, SenderView};

    ghost Value = { SenderView };

    ghost view = { λ s. record {
      plan = s.checked;
      frames = s.frames;
      announcement = s.announce;
      tick = s.next;
      handed = s.handed.items;
      carriers = s.carriers.items;
      slow = s.channels.slow;
      fast = s.channels.fast;
      frame = s.frame;
      octets = s.octets.items;
      rd = s.rd;
      rings = s.rings.items;
    } };

    ghost invariant = { λ s. IsSender (record {
      plan = s.checked;
      frames = s.frames;
      announcement = s.announce;
      tick = s.next;
      handed = s.handed.items;
      carriers = s.carriers.items;
      slow = s.channels.slow;
      fast = s.channels.fast;
      frame = s.frame;
      octets = s.octets.items;
      rd = s.rd;
      rings = s.rings.items;
    }) × (Y ≡ word_size s.checked.option) };
}

impl<const Y: usize> Sender<Y> {
    /// A run of `frames` ticks of a plan that meets the rules, without management channels.
    pub fn begin(alloc: Global, checked: &Checked, frames: u64) -> Result<Sender<Y>, NoMemory>
        requires words { Y ≡ word_size checked.now.option }
        requires run { frames ≤ 2 ^ 40 }
        ensures plan { IfOk result (λ s. s.plan ≡ checked.now) }
        ensures frames { IfOk result (λ s. s.frames ≡ frames) }
        ensures announcement { IfOk result (λ s. s.announcement ≡ record { version = 1; hdlc = 0; pointer = 0; l1 = 0 }) }
        ensures tick { IfOk result (λ s. s.tick ≡ 0) }
        ensures handed { IfOk result (λ s. s.handed ≡ replicate (length checked.now.carriers) 0) }
        ensures stands { IfOk result (λ s. StandsFor s (nothing_yet checked.now (record { version = 1; hdlc = 0; pointer = 0; l1 = 0 }))) }
    {
        let announce = Announce {
            version: 1,
            hdlc: 0,
            pointer: 0,
            l1: 0,
        };
        Sender::begin_with(alloc, checked, frames, announce)
    }

    /// A run of `frames` ticks of a plan that meets the rules, whose control words announce this. All memory that it needs is taken
    /// here, and its amount does not depend on the run's length: two blocks of samples a carrier, and the packets that wait for
    /// `lmin` ticks.
    pub fn begin_with(
        alloc: Global,
        checked: &Checked,
        frames: u64,
        announce: Announce,
    ) -> Result<Sender<Y>, NoMemory>
        requires words { Y ≡ word_size checked.now.option }
        requires run { frames ≤ 2 ^ 40 }
        requires announced { IsWithinTable Y announce }
        ensures plan { IfOk result (λ s. s.plan ≡ checked.now) }
        ensures frames { IfOk result (λ s. s.frames ≡ frames) }
        ensures announcement { IfOk result (λ s. s.announcement ≡ announce) }
        ensures tick { IfOk result (λ s. s.tick ≡ 0) }
        ensures handed { IfOk result (λ s. s.handed ≡ replicate (length checked.now.carriers) 0) }
        ensures stands { IfOk result (λ s. StandsFor s (nothing_yet checked.now announce)) }
    {
        Ok(Sender {
            checked: checked.copy(alloc)?,
            frames,
            announce,
            next: 0,
            handed: vec![in alloc; 0; checked.plan().carriers.len()]?,
            carriers: samples_in_hand(alloc, checked)?,
            channels: Channels::begin(alloc)?,
            octets: vec![in alloc; 0; 16 * Y]?,
            frame: Frame::new(alloc)?,
            rd: Rd::Minus,
            rings: packet_rings(alloc, checked)?,
        })
    }

    /// Queues a frame of the slow channel before the first tick. It is refused exactly where its length and two more exceed the
    /// room of the channel's queue, and nothing changes then.
    pub fn queue_slow(&mut self, frame: &[u8]) -> Result<(), Full>
        requires first { self.old.tick ≡ 0 }
        requires announced { 1 ≤ self.old.announcement.hdlc }
        requires some { 1 ≤ length frame.now }
        requires few { length frame.now ≤ 1500 }
        ensures full { IsErr result ↔ (slow.room_of self.old.slow.queue < length frame.now + 2) }
        ensures room { IfErr result (λ full. full.room ≡ slow.room_of self.old.slow.queue) }
        ensures err { OnErr result (self.new ≡ self.old) }
        ensures same { KeepsRun self.old self.new }
        ensures stands { OnOk result ((σ : Stream) → StandsFor self.old σ → StandsFor self.new (with_slow σ frame.now)) }
        ensures queue { (σ : Stream) → StandsFor self.old σ → self.old.slow.queue ≡ σ.slow }
    {
        self.channels.slow.queue(frame)
    }

    /// Queues a MAC frame of the fast channel before the first tick. It is refused exactly where its length and two more exceed
    /// the room of the channel's queue, and nothing changes then.
    pub fn queue_fast(&mut self, frame: &[u8]) -> Result<(), Full>
        requires first { self.old.tick ≡ 0 }
        requires announced { 1 ≤ self.old.announcement.pointer }
        requires some { 1 ≤ length frame.now }
        requires few { length frame.now ≤ 1522 }
        ensures full { IsErr result ↔ (fast.room_of self.old.fast.queue < length frame.now + 2) }
        ensures room { IfErr result (λ full. full.room ≡ fast.room_of self.old.fast.queue) }
        ensures err { OnErr result (self.new ≡ self.old) }
        ensures same { KeepsRun self.old self.new }
        ensures stands { OnOk result ((σ : Stream) → StandsFor self.old σ → StandsFor self.new (with_fast σ frame.now)) }
        ensures queue { (σ : Stream) → StandsFor self.old σ → self.old.fast.queue ≡ σ.fast }
    {
        self.channels.fast.queue(frame)
    }

    /// Takes the samples of carrier `c` that are due at the next tick, once a tick. They are refused exactly where one does not have
    /// the bits of the carrier's samples: the first such one is named, and nothing changes.
    pub fn hand_in(&mut self, c: usize, samples: &[RawIq]) -> Result<(), Range>
        requires carrier { c < length self.old.plan.carriers }
        requires run { self.old.tick < self.old.frames }
        requires due { length samples.now ≡ samples_due self.old.plan c self.old.tick }
        requires once { slice_index self.old.handed c ≡ samples_before self.old.plan c self.old.tick }
        ensures range { (carrier : OneCarrier) → slice_get self.old.plan.carriers c ≡ Some carrier
            → MatchResult result (λ _. All (IsWithin carrier.m) samples.now) (NamesFirst carrier.m c (samples_before self.old.plan c self.old.tick) samples.now) }
        ensures err { OnErr result (self.new ≡ self.old) }
        ensures ok { OnOk result (TakesOn self.old self.new c) }
        ensures stands { OnOk result ((σ : Stream) → StandsFor self.old σ → StandsFor self.new (with_samples σ c samples.now)) }
    {
        let width = self.checked.plan().carriers.at(c).m;
        if let Some(place) = first_outside(samples, width) {
            return Err(Range {
                carrier: c as u32,
                number: self.handed[c] + place as u64,
                value: samples[place],
            });
        }
        self.carriers[c].take(samples);
        self.handed[c] += samples.len() as u64;
        Ok(())
    }

    /// Makes the frame of the next tick. Samples that were not handed in are 0.
    pub fn tick(&mut self)
        requires { self.old.tick < 2 ^ 41 }
        ensures plan { self.new.plan ≡ self.old.plan }
        ensures frames { self.new.frames ≡ self.old.frames }
        ensures announcement { self.new.announcement ≡ self.old.announcement }
        ensures tick { self.new.tick ≡ self.old.tick + 1 }
        ensures handed { self.new.handed ≡ self.old.handed }
        ensures stands { (σ : Stream) → StandsFor self.old σ → StandsFor self.new σ }
    {
        let n = self.next;
        let managed = self.channels.next::<Y>(n, self.announce);
        let word = control_word::<Y>(n, self.announce, managed.as_slice());
        make_frame(
            self.checked.plan(),
            word.as_slice(),
            self.carriers.as_mut_slice(),
            self.octets.as_mut_slice(),
        );
        self.frame.set_octets(self.octets.as_slice());
        self.rd = put_frame(
            &self.checked,
            self.rings.as_mut_slice(),
            &self.frame,
            n,
            self.rd,
        );
        self.next += 1;
    }

    /// The frame that was made last. Before the first tick it is all 0.
    pub fn frame(&self) -> &Frame<Y>
        ensures none { (σ : Stream) → StandsFor self.now σ → self.now.tick ≡ 0 → result.now ≡ replicate (16 * word_size self.now.plan.option) 0 }
        ensures last { (σ : Stream) (n : ℕ) → StandsFor self.now σ → n + 1 ≡ self.now.tick → IsFrame self.now.plan σ n result.now }
        ensures words { Y ≡ word_size self.now.plan.option }
    {
        &self.frame
    }

    /// The packet of flow `f` whose window opens at the tick of the frame that was made last, if there is one in the run.
    pub fn ready(&self, f: usize) -> Option<&[u8]>
        requires { f < length self.now.plan.flows }
        ensures packet { (flow : OneFlow) → slice_get self.now.plan.flows f ≡ Some flow
            → MatchOption result ((i : ℕ) → ¬ OpensBefore self.now.plan self.now.frames flow self.now.tick i)
            (λ packet. (i : ℕ) × OpensBefore self.now.plan self.now.frames flow self.now.tick i
            × ((σ : Stream) → StandsFor self.now σ → IsPacket self.now.plan σ flow i packet.now)) }
        ensures few { IfSome result (λ packet. length packet.now ≤ 1514) }
    {
        let Some(number) = opened_before(self.checked.plan().flows.at(f), self.next) else {
            return None;
        };
        if number < self.checked.packets(f, self.frames) {
            Some(self.rings[f].packet(number))
        } else {
            None
        }
    }

    /// The next tick.
    pub fn now(&self) -> u64
        ensures { result ≡ self.now.tick }
    {
        self.next
    }
}

// The samples in hand of each carrier of a plan. All their memory is taken here.
fn samples_in_hand(alloc: Global, checked: &Checked) -> Result<Vec<SamplesInHand>, NoMemory>
    ensures { IfOk result (λ hands. hands.items ≡ map (λ (carrier : OneCarrier). begun (mapping_of carrier)) checked.now.carriers) }
{
    let carriers = checked.plan().carriers.as_slice();
    let mut hands = Vec::with_capacity(alloc, carriers.len())?;
    for carrier in carriers {
        hands.push(SamplesInHand::begin(alloc, carrier)?)?;
    }
    Ok(hands)
}
