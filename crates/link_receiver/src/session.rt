// Plays a run: octets arrive at the present tick, and samples leave at each.
ghost use Rattle.std.specs.Prelude.{◌≡◌, ◌+◌, ◌-◌, ◌<◌, ◌≤◌, ◌^◌, ◌++◌, ◌∷◌, [], List, IfOk, IsTrue, true, false, length, slice_get, Some};
ghost use Rattle.std.specs.Option.{ForSome, option_copied};
ghost use Rattle.carrier_plan.specs.declared.plan.Flow.{Flow as OneFlow};
ghost use Rattle.link_base.specs.Record.{Record};
ghost use Rattle.plan_checker.specs.Packets.{run_packets};
ghost use Rattle.plan_checker.specs.Run.{ticks_of_run};
ghost use Rattle.plan_checker.specs.WordSize.{word_size};
ghost use Rattle.link_receiver.specs.Answers.{answer_by, arrives};
ghost use Rattle.link_receiver.specs.Containers.{control_of_frame};
ghost use Rattle.link_receiver.specs.Output.{entries_before};
ghost use Rattle.link_receiver.specs.Received.{taken};
ghost use Rattle.link_receiver.specs.Runs.{entries_of_before, entries_of_run};
ghost use Rattle.link_receiver.specs.Sessions.{StandsFor};

use crate::arrival::arrival_of;
use crate::arrive::Arrive;
use crate::carrier_in_hand::{CarrierInHand, MOST_SAMPLES, carriers_in_hand};
use crate::entry::{Counts, Entry, LeavingSamples};
use crate::flow_in_hand::{FlowInHand, advance_all, flows_in_hand};
use crate::listing::list_carriers;
use crate::playing::play_tick;
use basic_frame::Frame;
use link_base::NoMemory;
use plan_checker::Checked;
use playout_buffer::Put;
use std::alloc::Global;
use std::marker::Model;

/// A run of a plan in words of Y octets. Contracts see the plan, the length of the run and the present tick, and by
/// `StandsFor` the records that were handed in.
#[derive(Drop)]
pub struct Session<const Y: usize> {
    checked: Checked,
    // The ticks of the run.
    frames: u64,
    // The present tick, which was not yet played.
    present: u64,
    flows: Vec<FlowInHand>,
    carriers: Vec<CarrierInHand>,
    // The frame that the symbols of a part spell, in mode `tunnel`.
    spelled: Frame<Y>,
    // Whether `entries` has the entries of the tick that was played last.
    listed: bool,
    entries: Vec<Entry>,
    // The control word of the frame that was played last, where it was not missed.
    control: Option<[u8; Y]>,
}

impl<const Y: usize> Model for Session<Y> {
    ghost use Rattle.std.specs.Prelude.{◌≡◌, ◌*◌, ◌≤◌, length};
    ghost use Rattle.std.specs.Option.{ForSome};
    ghost use Rattle.std.specs.Coded.{codes};
    ghost use Rattle.std.specs.Vec.{vec_capacity};
    ghost use Rattle.playout_buffer.specs.View.{view_code};
    ghost use Rattle.plan_checker.specs.WordSize.{word_size};
    ghost use Rattle.link_receiver.specs.Sessions.{SessionView, IsSession};

    ghost Value = { SessionView };

    ghost coded = { Prim.hlevel (codes, view_code) };

    ghost view = { λ s. record {
      plan = s.checked;
      frames = s.frames;
      tick = s.present;
      flows = s.flows.items;
      carriers = s.carriers.items;
      listed = s.listed;
      entries = s.entries.items;
      control = s.control;
    } };

    ghost invariant = { λ s. IsSession (record {
      plan = s.checked;
      frames = s.frames;
      tick = s.present;
      flows = s.flows.items;
      carriers = s.carriers.items;
      listed = s.listed;
      entries = s.entries.items;
      control = s.control;
    }) × (Y ≡ word_size s.checked.option) × (32 * length s.checked.carriers ≤ vec_capacity s.entries) × ForSome s.control (λ word. length word ≡ Y) };
}

impl<const Y: usize> Session<Y> {
    /// A run of `frames` ticks of a plan that meets the rules, at tick 0. All memory that it needs is taken here, and its amount
    /// does not depend on the run's length: room for `cap` payloads a flow, a block a carrier, and the entries of a tick.
    pub fn begin(alloc: Global, checked: &Checked, frames: u64) -> Result<Session<Y>, NoMemory>
        requires words { Y ≡ word_size checked.now.option }
        requires run { frames ≤ 2 ^ 40 }
        ensures plan { IfOk result (λ s. s.plan ≡ checked.now) }
        ensures frames { IfOk result (λ s. s.frames ≡ frames) }
        ensures tick { IfOk result (λ s. s.tick ≡ 0) }
        ensures listed { IfOk result (λ s. s.listed ≡ true) }
        ensures stands { IfOk result (λ s. StandsFor s []) }
    {
        playout_buffer::held_is_received();
        let carriers = checked.plan().carriers.len();
        Ok(Session {
            checked: checked.copy(alloc)?,
            frames,
            present: 0,
            flows: flows_in_hand(alloc, checked, frames)?,
            carriers: carriers_in_hand(alloc, checked)?,
            spelled: Frame::new(alloc)?,
            listed: true,
            entries: Vec::with_capacity(alloc, MOST_SAMPLES * carriers)?,
            control: None,
        })
    }

    /// Takes octets that arrive at the present tick, and says what was done with them. Addresses are not compared, and octets
    /// after the payload are read past.
    pub fn arrive(&mut self, octets: &[u8]) -> Arrive
        ensures plan { self.new.plan ≡ self.old.plan }
        ensures frames { self.new.frames ≡ self.old.frames }
        ensures tick { self.new.tick ≡ self.old.tick }
        ensures listed { self.new.listed ≡ self.old.listed }
        ensures answer { (records : List Record) → StandsFor self.old records → result ≡ arrives self.old.plan self.old.frames records self.old.tick octets.now }
        ensures stands { (records : List Record) → StandsFor self.old records
            → StandsFor self.new (records ++ record { tick = self.old.tick; octets = octets.now } ∷ []) }
    {
        playout_buffer::held_is_received();
        playout_buffer::taken_are_counted();
        match arrival_of(&self.checked, octets) {
            Ok(arrival) => {
                let put = self.flows[arrival.flow].take(arrival.seq, arrival.payload);
                answer(arrival.flow, arrival.seq, put)
            }
            Err(answer) => answer,
        }
    }

    /// Plays the present tick, and goes to the next. The samples that leave are lent by `leaving`, and are not listed as entries.
    /// What arrives at a tick has to be handed in before.
    pub fn play(&mut self)
        requires { self.old.tick < ticks_of_run self.old.plan self.old.frames }
        ensures plan { self.new.plan ≡ self.old.plan }
        ensures frames { self.new.frames ≡ self.old.frames }
        ensures tick { self.new.tick ≡ self.old.tick + 1 }
        ensures listed { self.new.listed ≡ false }
        ensures stands { (records : List Record) → StandsFor self.old records → StandsFor self.new records }
    {
        playout_buffer::held_is_received();
        play_tick(
            &self.checked,
            self.flows.as_slice(),
            self.present,
            self.frames,
            &mut self.spelled,
            self.carriers.as_mut_slice(),
            &mut self.control,
        );
        advance_all(self.flows.as_mut_slice());
        self.present += 1;
        self.listed = false;
    }

    /// Plays the present tick, goes to the next, and lists the entries of the samples that leave. What arrives at a tick has to be
    /// handed in before.
    pub fn tick(&mut self)
        requires { self.old.tick < ticks_of_run self.old.plan self.old.frames }
        ensures plan { self.new.plan ≡ self.old.plan }
        ensures frames { self.new.frames ≡ self.old.frames }
        ensures tick { self.new.tick ≡ self.old.tick + 1 }
        ensures listed { self.new.listed ≡ true }
        ensures stands { (records : List Record) → StandsFor self.old records → StandsFor self.new records }
    {
        self.play();
        self.list();
    }

    // Lists the entries of the samples that left at the tick before.
    fn list(&mut self)
        requires { 0 < self.old.tick }
        ensures plan { self.new.plan ≡ self.old.plan }
        ensures frames { self.new.frames ≡ self.old.frames }
        ensures tick { self.new.tick ≡ self.old.tick }
        ensures listed { self.new.listed ≡ true }
        ensures stands { (records : List Record) → StandsFor self.old records → StandsFor self.new records }
    {
        list_carriers(
            self.carriers.as_slice(),
            self.present - 1,
            &mut self.entries,
        );
        self.listed = true;
    }

    /// The samples of carrier `c` that left at the tick that was played last. Before the first tick there are none.
    pub fn leaving(&self, c: usize) -> LeavingSamples<'_>
        requires { c < length self.now.plan.carriers }
        ensures few { length result.samples.now ≤ 32 }
        ensures numbers { result.number + length result.samples.now < 2 ^ 64 }
        ensures entries { (records : List Record) → StandsFor self.now records
            → entries_of_run (self.now.tick - 1) c result.number result.marks result.samples.now (length result.samples.now)
            ≡ entries_of_before self.now.plan self.now.frames records self.now.tick c }
    {
        let kept = &self.carriers[c];
        LeavingSamples {
            number: kept.number,
            samples: &kept.samples[..kept.count as usize],
            marks: kept.marks,
        }
    }

    /// The entries of the tick that was played last, by carrier, then number. Before the first tick there are none.
    pub fn entries(&self) -> &[Entry]
        ensures { (records : List Record) → StandsFor self.now records → IsTrue self.now.listed
            → result.now ≡ entries_before self.now.plan self.now.frames records self.now.tick }
    {
        self.entries.as_slice()
    }

    /// The control word of the frame that was played last, in the flow that has control. None where the frame is missed in it.
    pub fn control(&self) -> Option<&[u8]>
        requires { self.now.plan.playout < self.now.tick }
        ensures control { (records : List Record) → StandsFor self.now records
            → option_copied result ≡ control_of_frame self.now.plan self.now.frames records (self.now.tick - 1 - self.now.plan.playout) }
        ensures octets { ForSome result (λ octets. length octets.now ≡ word_size self.now.plan.option) }
    {
        match &self.control {
            Some(word) => Some(word.as_slice()),
            None => None,
        }
    }

    /// The present tick, which was not yet played.
    pub fn now(&self) -> u64
        ensures { result ≡ self.now.tick }
    {
        self.present
    }

    /// How many packets of flow `f` were received.
    pub fn counts(&self, f: usize) -> Counts
        requires { f < length self.now.plan.flows }
        ensures { (records : List Record) (flow : OneFlow) → StandsFor self.now records → slice_get self.now.plan.flows f ≡ Some flow
            → (result.taken ≡ taken self.now.plan flow self.now.frames records) × (result.packets ≡ run_packets self.now.plan flow self.now.frames) }
    {
        Counts {
            taken: self.flows[f].taken,
            packets: self.checked.packets(f, self.frames),
        }
    }
}

// What is answered to a payload of flow `flow`, by what was done with it.
fn answer(flow: usize, seq: u32, put: Put) -> Arrive
    requires { flow < 2 ^ 32 }
    ensures { result ≡ answer_by flow seq put }
{
    let flow = flow as u32;
    match put {
        Put::Taken(number) => Arrive::Taken { flow, number },
        Put::Repeat(number) => Arrive::Repeat { flow, number },
        Put::Outside => Arrive::Outside { flow, seq },
    }
}
