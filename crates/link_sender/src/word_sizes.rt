// A sender of a plan in words of any size.
ghost use Rattle.std.specs.Prelude.{◌≡◌, ◌↔◌, ℕ, ◌+◌, ◌*◌, ◌<◌, ◌≤◌, ◌^◌, All, IfErr, IfOk, IfSome, IsErr, MatchOption, MatchResult, OnErr, OnOk, Some, length, replicate, slice_get, slice_index};
ghost use Rattle.carrier_plan.specs.declared.plan.Carrier.{Carrier as OneCarrier};
ghost use Rattle.carrier_plan.specs.declared.plan.Flow.{Flow as OneFlow};
ghost use Rattle.control_words.specs.Announcement.{IsWithinTable};
ghost use Rattle.ethernet_channel.specs.FastStream as fast;
ghost use Rattle.hdlc_channel.specs.SlowStream as slow;
ghost use Rattle.plan_checker.specs.Run.{samples_before, samples_due};
ghost use Rattle.plan_checker.specs.WordSize.{word_size};
ghost use Rattle.sample_bits.specs.Samples.{IsWithin};
ghost use Rattle.link_sender.specs.Frames.{IsFrame};
ghost use Rattle.link_sender.specs.HandedIn.{nothing_yet, with_fast, with_samples, with_slow};
ghost use Rattle.link_sender.specs.Packets.{IsPacket};
ghost use Rattle.link_sender.specs.Senders.{KeepsRun, NamesFirst, OpensBefore, StandsFor, TakesOn};
ghost use Rattle.link_sender.specs.Stream.{Stream};

use crate::range::Range;
use crate::sender::Sender;
use control_words::Announce;
use link_base::{Full, NoMemory};
use plan_checker::{Checked, octets_of_word};
use sample_bits::RawIq;
use std::alloc::Global;
use std::marker::Model;

#[derive(Drop)]
enum Sized {
    One(Sender<1>),
    Two(Sender<2>),
    Four(Sender<4>),
    Five(Sender<5>),
    Eight(Sender<8>),
    Ten(Sender<10>),
    Sixteen(Sender<16>),
}

/// A run of a plan in words of whatever size its line option has. Its calls are those of `Sender`.
pub struct AnySender {
    sender: Sized,
}

// By hand, so that a sender is let go by a call, and not part by part in the proof of whoever holds one.
impl Drop for AnySender {
    fn drop(self) {
        let AnySender { sender: _ } = self;
    }
}

impl Model for AnySender {
    ghost use Rattle.link_sender.specs.Senders.{SenderView};
    ghost use Rattle.link_sender.specs.WordSizes.{sender_in};

    ghost Value = { SenderView };

    ghost view = { λ s. sender_in s.sender };
}

impl AnySender {
    /// A run of `frames` ticks of a plan that meets the rules, whose control words announce this. All memory that it needs is taken
    /// here, and its amount does not depend on the run's length.
    pub fn begin_with(
        alloc: Global,
        checked: &Checked,
        frames: u64,
        announce: Announce,
    ) -> Result<AnySender, NoMemory>
        requires run { frames ≤ 2 ^ 40 }
        requires announced { IsWithinTable (word_size checked.now.option) announce }
        ensures plan { IfOk result (λ s. s.plan ≡ checked.now) }
        ensures frames { IfOk result (λ s. s.frames ≡ frames) }
        ensures announcement { IfOk result (λ s. s.announcement ≡ announce) }
        ensures tick { IfOk result (λ s. s.tick ≡ 0) }
        ensures handed { IfOk result (λ s. s.handed ≡ replicate (length checked.now.carriers) 0) }
        ensures stands { IfOk result (λ s. StandsFor s (nothing_yet checked.now announce)) }
    {
        let octets = octets_of_word(checked.plan().option);
        macro_rules! begin_at_size {
            ($($octets:literal $size:ident)*) => {
                $(if octets == $octets {
                    let sender = Sized::$size(Sender::begin_with(alloc, checked, frames, announce)?);
                    return Ok(AnySender { sender });
                })*
            };
        }
        begin_at_size!(1 One 2 Two 4 Four 5 Five 8 Eight 10 Ten);
        let sender = Sized::Sixteen(Sender::begin_with(alloc, checked, frames, announce)?);
        Ok(AnySender { sender })
    }

    /// Queues a frame of the slow channel before the first tick. It is refused exactly where its length and two more exceed the
    /// room of the channel's queue, and nothing changes then.
    pub fn queue_slow(&mut self, frame: &[u8]) -> Result<(), Full>
        requires first { self.old.tick ≡ 0 }
        requires announced { 1 ≤ self.old.announcement.hdlc }
        requires some { 1 ≤ length frame.now }
        requires few { length frame.now ≤ 1500 }
        ensures full { IsErr result ↔ (slow.room_of self.old.slow.queue < length frame.now + 2) }
        ensures room { IfErr result (λ full. full.room ≡ slow.room_of self.old.slow.queue) }
        ensures err { OnErr result (self.new ≡ self.old) }
        ensures same { KeepsRun self.old self.new }
        ensures stands { OnOk result ((σ : Stream) → StandsFor self.old σ → StandsFor self.new (with_slow σ frame.now)) }
        ensures queue { (σ : Stream) → StandsFor self.old σ → self.old.slow.queue ≡ σ.slow }
    {
        macro_rules! at_each_size {
            ($($size:ident)*) => {
                match &mut self.sender {
                    $(Sized::$size(sender) => sender.queue_slow(frame),)*
                }
            };
        }
        at_each_size!(One Two Four Five Eight Ten Sixteen)
    }

    /// Queues a MAC frame of the fast channel before the first tick. It is refused exactly where its length and two more exceed
    /// the room of the channel's queue, and nothing changes then.
    pub fn queue_fast(&mut self, frame: &[u8]) -> Result<(), Full>
        requires first { self.old.tick ≡ 0 }
        requires announced { 1 ≤ self.old.announcement.pointer }
        requires some { 1 ≤ length frame.now }
        requires few { length frame.now ≤ 1522 }
        ensures full { IsErr result ↔ (fast.room_of self.old.fast.queue < length frame.now + 2) }
        ensures room { IfErr result (λ full. full.room ≡ fast.room_of self.old.fast.queue) }
        ensures err { OnErr result (self.new ≡ self.old) }
        ensures same { KeepsRun self.old self.new }
        ensures stands { OnOk result ((σ : Stream) → StandsFor self.old σ → StandsFor self.new (with_fast σ frame.now)) }
        ensures queue { (σ : Stream) → StandsFor self.old σ → self.old.fast.queue ≡ σ.fast }
    {
        macro_rules! at_each_size {
            ($($size:ident)*) => {
                match &mut self.sender {
                    $(Sized::$size(sender) => sender.queue_fast(frame),)*
                }
            };
        }
        at_each_size!(One Two Four Five Eight Ten Sixteen)
    }

    /// Takes the samples of carrier `c` that are due at the next tick, once a tick. They are refused exactly where one does not have
    /// the bits of the carrier's samples: the first such one is named, and nothing changes.
    pub fn hand_in(&mut self, c: usize, samples: &[RawIq]) -> Result<(), Range>
        requires carrier { c < length self.old.plan.carriers }
        requires run { self.old.tick < self.old.frames }
        requires due { length samples.now ≡ samples_due self.old.plan c self.old.tick }
        requires once { slice_index self.old.handed c ≡ samples_before self.old.plan c self.old.tick }
        ensures range { (carrier : OneCarrier) → slice_get self.old.plan.carriers c ≡ Some carrier
            → MatchResult result (λ _. All (IsWithin carrier.m) samples.now) (NamesFirst carrier.m c (samples_before self.old.plan c self.old.tick) samples.now) }
        ensures err { OnErr result (self.new ≡ self.old) }
        ensures ok { OnOk result (TakesOn self.old self.new c) }
        ensures stands { OnOk result ((σ : Stream) → StandsFor self.old σ → StandsFor self.new (with_samples σ c samples.now)) }
    {
        macro_rules! at_each_size {
            ($($size:ident)*) => {
                match &mut self.sender {
                    $(Sized::$size(sender) => sender.hand_in(c, samples),)*
                }
            };
        }
        at_each_size!(One Two Four Five Eight Ten Sixteen)
    }

    /// Makes the frame of the next tick. Samples that were not handed in are 0.
    pub fn tick(&mut self)
        requires { self.old.tick < 2 ^ 41 }
        ensures plan { self.new.plan ≡ self.old.plan }
        ensures frames { self.new.frames ≡ self.old.frames }
        ensures announcement { self.new.announcement ≡ self.old.announcement }
        ensures tick { self.new.tick ≡ self.old.tick + 1 }
        ensures handed { self.new.handed ≡ self.old.handed }
        ensures stands { (σ : Stream) → StandsFor self.old σ → StandsFor self.new σ }
    {
        macro_rules! at_each_size {
            ($($size:ident)*) => {
                match &mut self.sender {
                    $(Sized::$size(sender) => sender.tick(),)*
                }
            };
        }
        at_each_size!(One Two Four Five Eight Ten Sixteen)
    }

    /// The octets of the frame that was made last, the control word first. Before the first tick they are all 0.
    pub fn frame(&self) -> &[u8]
        ensures none { (σ : Stream) → StandsFor self.now σ → self.now.tick ≡ 0 → result.now ≡ replicate (16 * word_size self.now.plan.option) 0 }
        ensures last { (σ : Stream) (n : ℕ) → StandsFor self.now σ → n + 1 ≡ self.now.tick → IsFrame self.now.plan σ n result.now }
        ensures size { length result.now ≡ 16 * word_size self.now.plan.option }
    {
        macro_rules! at_each_size {
            ($($size:ident)*) => {
                match &self.sender {
                    $(Sized::$size(sender) => sender.frame().octets(),)*
                }
            };
        }
        at_each_size!(One Two Four Five Eight Ten Sixteen)
    }

    /// The packet of flow `f` whose window opens at the tick of the frame that was made last, if there is one in the run.
    pub fn ready(&self, f: usize) -> Option<&[u8]>
        requires { f < length self.now.plan.flows }
        ensures packet { (flow : OneFlow) → slice_get self.now.plan.flows f ≡ Some flow
            → MatchOption result ((i : ℕ) → ¬ OpensBefore self.now.plan self.now.frames flow self.now.tick i)
            (λ packet. (i : ℕ) × OpensBefore self.now.plan self.now.frames flow self.now.tick i
            × ((σ : Stream) → StandsFor self.now σ → IsPacket self.now.plan σ flow i packet.now)) }
        ensures few { IfSome result (λ packet. length packet.now ≤ 1514) }
    {
        macro_rules! at_each_size {
            ($($size:ident)*) => {
                match &self.sender {
                    $(Sized::$size(sender) => sender.ready(f),)*
                }
            };
        }
        at_each_size!(One Two Four Five Eight Ten Sixteen)
    }

    /// The next tick.
    pub fn now(&self) -> u64
        ensures { result ≡ self.now.tick }
    {
        macro_rules! at_each_size {
            ($($size:ident)*) => {
                match &self.sender {
                    $(Sized::$size(sender) => sender.now(),)*
                }
            };
        }
        at_each_size!(One Two Four Five Eight Ten Sixteen)
    }
}
