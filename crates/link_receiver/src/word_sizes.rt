// A session of a plan in words of any size.
ghost use Rattle.std.specs.Prelude.{◌≡◌, ◌+◌, ◌-◌, ◌<◌, ◌≤◌, ◌^◌, ◌++◌, ◌∷◌, [], List, IfOk, IsTrue, true, length, slice_get, Some};
ghost use Rattle.std.specs.Option.{ForSome, option_copied};
ghost use Rattle.carrier_plan.specs.declared.plan.Flow.{Flow as OneFlow};
ghost use Rattle.link_base.specs.Record.{Record};
ghost use Rattle.plan_checker.specs.Packets.{run_packets};
ghost use Rattle.plan_checker.specs.Run.{ticks_of_run};
ghost use Rattle.plan_checker.specs.WordSize.{word_size};
ghost use Rattle.link_receiver.specs.Answers.{arrives};
ghost use Rattle.link_receiver.specs.Containers.{control_of_frame};
ghost use Rattle.link_receiver.specs.Output.{entries_before};
ghost use Rattle.link_receiver.specs.Received.{taken};
ghost use Rattle.link_receiver.specs.Runs.{entries_of_before, entries_of_run};
ghost use Rattle.link_receiver.specs.Sessions.{StandsFor};

use crate::arrive::Arrive;
use crate::entry::{Counts, Entry, LeavingSamples};
use crate::session::Session;
use link_base::NoMemory;
use plan_checker::{Checked, octets_of_word};
use std::alloc::Global;
use std::marker::Model;

#[derive(Drop)]
enum Sized {
    One(Session<1>),
    Two(Session<2>),
    Four(Session<4>),
    Five(Session<5>),
    Eight(Session<8>),
    Ten(Session<10>),
    Sixteen(Session<16>),
}

/// A run of a plan in words of whatever size its line option has. Its calls are those of `Session`.
pub struct AnySession {
    session: Sized,
}

// By hand, so that a session is let go by a call, and not part by part in the proof of whoever holds one.
impl Drop for AnySession {
    fn drop(self) {
        let AnySession { session: _ } = self;
    }
}

impl Model for AnySession {
    ghost use Rattle.std.specs.Coded.{codes};
    ghost use Rattle.playout_buffer.specs.View.{view_code};
    ghost use Rattle.link_receiver.specs.Sessions.{SessionView};
    ghost use Rattle.link_receiver.specs.WordSizes.{session_in};

    ghost Value = { SessionView };

    ghost coded = { Prim.hlevel (codes, view_code) };

    ghost view = { λ s. session_in s.session };
}

impl AnySession {
    /// A run of `frames` ticks of a plan that meets the rules, at tick 0. All memory that it needs is taken here, and its amount
    /// does not depend on the run's length.
    pub fn begin(alloc: Global, checked: &Checked, frames: u64) -> Result<AnySession, NoMemory>
        requires { frames ≤ 2 ^ 40 }
        ensures plan { IfOk result (λ s. s.plan ≡ checked.now) }
        ensures frames { IfOk result (λ s. s.frames ≡ frames) }
        ensures tick { IfOk result (λ s. s.tick ≡ 0) }
        ensures listed { IfOk result (λ s. s.listed ≡ true) }
        ensures stands { IfOk result (λ s. StandsFor s []) }
    {
        let octets = octets_of_word(checked.plan().option);
        macro_rules! begin_at_size {
            ($($octets:literal $size:ident)*) => {
                $(if octets == $octets {
                    let session = Sized::$size(Session::begin(alloc, checked, frames)?);
                    return Ok(AnySession { session });
                })*
            };
        }
        begin_at_size!(1 One 2 Two 4 Four 5 Five 8 Eight 10 Ten);
        let session = Sized::Sixteen(Session::begin(alloc, checked, frames)?);
        Ok(AnySession { session })
    }

    /// Takes octets that arrive at the present tick, and says what was done with them.
    pub fn arrive(&mut self, octets: &[u8]) -> Arrive
        ensures plan { self.new.plan ≡ self.old.plan }
        ensures frames { self.new.frames ≡ self.old.frames }
        ensures tick { self.new.tick ≡ self.old.tick }
        ensures listed { self.new.listed ≡ self.old.listed }
        ensures answer { (records : List Record) → StandsFor self.old records → result ≡ arrives self.old.plan self.old.frames records self.old.tick octets.now }
        ensures stands { (records : List Record) → StandsFor self.old records
            → StandsFor self.new (records ++ record { tick = self.old.tick; octets = octets.now } ∷ []) }
    {
        macro_rules! at_each_size {
            ($($size:ident)*) => {
                match &mut self.session {
                    $(Sized::$size(session) => session.arrive(octets),)*
                }
            };
        }
        at_each_size!(One Two Four Five Eight Ten Sixteen)
    }

    /// Plays the present tick, and goes to the next. The samples that leave are lent by `leaving`, and are not listed as entries.
    pub fn play(&mut self)
        requires { self.old.tick < ticks_of_run self.old.plan self.old.frames }
        ensures plan { self.new.plan ≡ self.old.plan }
        ensures frames { self.new.frames ≡ self.old.frames }
        ensures tick { self.new.tick ≡ self.old.tick + 1 }
        ensures stands { (records : List Record) → StandsFor self.old records → StandsFor self.new records }
    {
        macro_rules! at_each_size {
            ($($size:ident)*) => {
                match &mut self.session {
                    $(Sized::$size(session) => session.play(),)*
                }
            };
        }
        at_each_size!(One Two Four Five Eight Ten Sixteen)
    }

    /// Plays the present tick, goes to the next, and lists the entries of the samples that leave.
    pub fn tick(&mut self)
        requires { self.old.tick < ticks_of_run self.old.plan self.old.frames }
        ensures plan { self.new.plan ≡ self.old.plan }
        ensures frames { self.new.frames ≡ self.old.frames }
        ensures tick { self.new.tick ≡ self.old.tick + 1 }
        ensures listed { self.new.listed ≡ true }
        ensures stands { (records : List Record) → StandsFor self.old records → StandsFor self.new records }
    {
        macro_rules! at_each_size {
            ($($size:ident)*) => {
                match &mut self.session {
                    $(Sized::$size(session) => session.tick(),)*
                }
            };
        }
        at_each_size!(One Two Four Five Eight Ten Sixteen)
    }

    /// The samples of carrier `c` that left at the tick that was played last. Before the first tick there are none.
    pub fn leaving(&self, c: usize) -> LeavingSamples<'_>
        requires { c < length self.now.plan.carriers }
        ensures few { length result.samples.now ≤ 32 }
        ensures numbers { result.number + length result.samples.now < 2 ^ 64 }
        ensures entries { (records : List Record) → StandsFor self.now records
            → entries_of_run (self.now.tick - 1) c result.number result.marks result.samples.now (length result.samples.now)
            ≡ entries_of_before self.now.plan self.now.frames records self.now.tick c }
    {
        macro_rules! at_each_size {
            ($($size:ident)*) => {
                match &self.session {
                    $(Sized::$size(session) => session.leaving(c),)*
                }
            };
        }
        at_each_size!(One Two Four Five Eight Ten Sixteen)
    }

    /// The entries of the tick that was played last, by carrier, then number.
    pub fn entries(&self) -> &[Entry]
        ensures { (records : List Record) → StandsFor self.now records → IsTrue self.now.listed
            → result.now ≡ entries_before self.now.plan self.now.frames records self.now.tick }
    {
        macro_rules! at_each_size {
            ($($size:ident)*) => {
                match &self.session {
                    $(Sized::$size(session) => session.entries(),)*
                }
            };
        }
        at_each_size!(One Two Four Five Eight Ten Sixteen)
    }

    /// The control word of the frame that was played last, in the flow that has control. None where the frame is missed in it.
    pub fn control(&self) -> Option<&[u8]>
        requires { self.now.plan.playout < self.now.tick }
        ensures control { (records : List Record) → StandsFor self.now records
            → option_copied result ≡ control_of_frame self.now.plan self.now.frames records (self.now.tick - 1 - self.now.plan.playout) }
        ensures octets { ForSome result (λ octets. length octets.now ≡ word_size self.now.plan.option) }
    {
        macro_rules! at_each_size {
            ($($size:ident)*) => {
                match &self.session {
                    $(Sized::$size(session) => session.control(),)*
                }
            };
        }
        at_each_size!(One Two Four Five Eight Ten Sixteen)
    }

    /// The present tick, which was not yet played.
    pub fn now(&self) -> u64
        ensures { result ≡ self.now.tick }
    {
        macro_rules! at_each_size {
            ($($size:ident)*) => {
                match &self.session {
                    $(Sized::$size(session) => session.now(),)*
                }
            };
        }
        at_each_size!(One Two Four Five Eight Ten Sixteen)
    }

    /// How many packets of flow `f` were received.
    pub fn counts(&self, f: usize) -> Counts
        requires { f < length self.now.plan.flows }
        ensures { (records : List Record) (flow : OneFlow) → StandsFor self.now records → slice_get self.now.plan.flows f ≡ Some flow
            → (result.taken ≡ taken self.now.plan flow self.now.frames records) × (result.packets ≡ run_packets self.now.plan flow self.now.frames) }
    {
        macro_rules! at_each_size {
            ($($size:ident)*) => {
                match &self.session {
                    $(Sized::$size(session) => session.counts(f),)*
                }
            };
        }
        at_each_size!(One Two Four Five Eight Ten Sixteen)
    }
}
