// A run that is played tick by tick, and the text of its ticks and its flows.
ghost use Rattle.std.specs.Prelude.{◌≡◌, ◌+◌, ◌-◌, ◌<◌, ◌≤◌, ◌^◌, ◌++◌, ◌∷◌, [], List, length, IfOk, OnOk, OnErr};
ghost use Rattle.std.specs.Option.{ForSome};
ghost use Rattle.control_words.specs.Announcement.{IsWithinTable};
ghost use Rattle.control_words.specs.declared.announce.Announce.{Announce as Announced};
ghost use Rattle.link_base.specs.Faults.{HasCause};
ghost use Rattle.link_base.specs.Record.{Record};
ghost use Rattle.link_base.specs.WordSize.{IsWordSize};
ghost use Rattle.link_receiver.specs.Sessions.{StandsFor};
ghost use Rattle.link_text.specs.Gathered.{Gathers, BreaksOff};
ghost use Rattle.plan_checker.specs.Rules.{IsGood};
ghost use Rattle.plan_checker.specs.Run.{ticks_of_run};
ghost use Rattle.plan_checker.specs.WordSize.{word_size};
ghost use Rattle.link_run_replay.specs.CaptureRun.{IsBegunReader, KeepsChannels, PlaysRun};
ghost use Rattle.link_run_replay.specs.EntryLines.{flow_lines};
ghost use Rattle.link_run_replay.specs.RunText.{management_lines, tick_text, text_between};

use crate::entry_lines::{put_flows, put_leaving};
use control_words::Announce;
use link_base::{Failed, NoMemory, Sink};
use link_receiver::AnySession;
use link_run_capture::Header;
use link_run_management::ManagementReader;
use link_text::TextBuffer;
use plan_checker::{Checked, octets_of_word};
use std::alloc::Global;

/// A run that is played, and what its control words say.
#[derive(Drop)]
pub struct Player {
    pub session: AnySession,
    /// The reader of the management channels, where any is announced.
    pub management: Option<ManagementReader>,
    /// How many ticks behind its own number a frame is played.
    playout: u64,
    /// The carriers of the plan.
    carriers: u32,
    /// The flows of the plan.
    flows: usize,
    ghost of_playout: { playout ≡ session.plan.playout },
    ghost of_carriers: { carriers ≡ length session.plan.carriers },
    ghost of_flows: { flows ≡ length session.plan.flows },
    ghost of_words: { ForSome management (λ reader. reader.width ≡ word_size session.plan.option) },
}

// How many carriers the plan has.
fn carriers_of(checked: &Checked) -> u32
    ensures { result ≡ length checked.now.carriers }
{
    checked.plan().carriers.len() as u32
}

// How many octets a word of the plan has.
fn width_of(checked: &Checked) -> usize
    ensures value { result ≡ word_size checked.now.option }
    ensures size { IsWordSize result }
{
    octets_of_word(checked.plan().option)
}

// How many ticks behind its own number a frame is played.
fn playout_of(checked: &Checked) -> u64
    ensures { result ≡ checked.now.playout }
{
    u64::from(checked.plan().playout)
}

// A reader of the channels that are announced, if any is, in words of so many octets.
fn reader_of(
    alloc: Global,
    width: usize,
    announce: Announce,
) -> Result<Option<ManagementReader>, NoMemory>
    requires size { IsWordSize width }
    requires within { IsWithinTable width announce }
    ensures begun { IfOk result (IsBegunReader width announce) }
    ensures width { IfOk result (λ reader. ForSome reader (λ r. r.width ≡ width)) }
{
    if announce.hdlc == 0 && announce.pointer == 0 {
        return Ok(None);
    }
    let reader = ManagementReader::begin(alloc, width, announce)?;
    Ok(Some(reader))
}

impl Player {
    /// A run with this header, of a plan that meets the rules. All memory that it needs is taken here.
    pub fn begin(alloc: Global, checked: &Checked, header: Header) -> Result<Player, NoMemory>
        requires few { header.run_ticks ≤ 2 ^ 40 }
        requires within { IsWithinTable (word_size checked.now.option) header.announce }
        ensures plan { IfOk result (λ p. p.session.plan ≡ checked.now) }
        ensures frames { IfOk result (λ p. p.session.frames ≡ header.run_ticks) }
        ensures tick { IfOk result (λ p. p.session.tick ≡ 0) }
        ensures good { OnOk result (IsGood checked.now) }
        ensures plays { IfOk result (λ p. PlaysRun p.session p.management header.announce []) }
    {
        let session = AnySession::begin(alloc, checked, header.run_ticks)?;
        let management = reader_of(alloc, width_of(checked), header.announce)?;
        Ok(Player {
            session,
            management,
            playout: playout_of(checked),
            carriers: carriers_of(checked),
            flows: checked.plan().flows.len(),
        })
    }

    /// Takes octets that arrive at the present tick.
    pub fn arrive(&mut self, octets: &[u8])
        ensures plan { self.new.session.plan ≡ self.old.session.plan }
        ensures frames { self.new.session.frames ≡ self.old.session.frames }
        ensures tick { self.new.session.tick ≡ self.old.session.tick }
        ensures management { self.new.management ≡ self.old.management }
        ensures stands { (records : List Record) → StandsFor self.old.session records
            → StandsFor self.new.session (records ++ record { tick = self.old.session.tick; octets = octets.now } ∷ []) }
    {
        self.session.arrive(octets);
    }

    // Follows the frame that was played at tick `tick`, which is the last one, and appends what the management channels say.
    fn put_management<K: Sink>(
        &mut self,
        tick: u64,
        text: &mut TextBuffer,
        out: &mut K,
    ) -> Result<(), Failed>
        requires { self.old.session.tick ≡ tick + 1 }
        ensures session { self.new.session ≡ self.old.session }
        ensures cause { HasCause (K.taken out.old).faults (K.taken out.new).faults result }
        ensures keeps { OnOk result ((a : Announced) (records : List Record) → StandsFor self.old.session records
            → KeepsChannels self.old.session.plan self.old.session.frames a records (tick - self.old.session.plan.playout) self.old.management
            → KeepsChannels self.old.session.plan self.old.session.frames a records (tick + 1 - self.old.session.plan.playout) self.new.management) }
        ensures puts { OnOk result ((a : Announced) (records : List Record) → StandsFor self.old.session records
            → KeepsChannels self.old.session.plan self.old.session.frames a records (tick - self.old.session.plan.playout) self.old.management
            → Gathers (management_lines self.old.session.plan self.old.session.frames a records tick) text.old (K.taken out.old) text.new (K.taken out.new)) }
        ensures fails { OnErr result ((a : Announced) (records : List Record) → StandsFor self.old.session records
            → KeepsChannels self.old.session.plan self.old.session.frames a records (tick - self.old.session.plan.playout) self.old.management
            → BreaksOff (management_lines self.old.session.plan self.old.session.frames a records tick) text.old (K.taken out.old) (K.taken out.new)) }
    {
        let Some(reader) = &mut self.management else {
            return Ok(());
        };
        if tick < self.playout {
            return Ok(());
        }
        match reader.read(tick, self.session.control(), text, out) {
            Ok(()) => Ok(()),
            Err(failed) => Err(failed),
        }
    }

    // Plays the present tick, and appends its text.
    fn play_tick<K: Sink>(&mut self, text: &mut TextBuffer, out: &mut K) -> Result<(), Failed>
        requires { self.old.session.tick < ticks_of_run self.old.session.plan self.old.session.frames }
        ensures plan { self.new.session.plan ≡ self.old.session.plan }
        ensures frames { self.new.session.frames ≡ self.old.session.frames }
        ensures tick { self.new.session.tick ≡ self.old.session.tick + 1 }
        ensures cause { HasCause (K.taken out.old).faults (K.taken out.new).faults result }
        ensures plays { OnOk result ((a : Announced) (records : List Record) → PlaysRun self.old.session self.old.management a records
            → PlaysRun self.new.session self.new.management a records) }
        ensures puts { OnOk result ((a : Announced) (records : List Record) → PlaysRun self.old.session self.old.management a records
            → Gathers (tick_text self.old.session.plan self.old.session.frames a records self.old.session.tick) text.old (K.taken out.old) text.new (K.taken out.new)) }
        ensures fails { OnErr result ((a : Announced) (records : List Record) → PlaysRun self.old.session self.old.management a records
            → BreaksOff (tick_text self.old.session.plan self.old.session.frames a records self.old.session.tick) text.old (K.taken out.old) (K.taken out.new)) }
    {
        let tick = self.session.now();
        self.session.play();
        match put_leaving(&self.session, self.carriers, tick, text, out) {
            Ok(()) => {}
            Err(failed) => return Err(failed),
        }
        match self.put_management(tick, text, out) {
            Ok(()) => Ok(()),
            Err(failed) => Err(failed),
        }
    }

    /// Plays the ticks before tick `end`, and appends their text.
    pub fn play_to<K: Sink>(
        &mut self,
        end: u64,
        text: &mut TextBuffer,
        out: &mut K,
    ) -> Result<(), Failed>
        requires { end ≤ ticks_of_run self.old.session.plan self.old.session.frames }
        ensures plan { self.new.session.plan ≡ self.old.session.plan }
        ensures frames { self.new.session.frames ≡ self.old.session.frames }
        ensures tick { OnOk result (self.old.session.tick ≤ end → self.new.session.tick ≡ end) }
        ensures cause { HasCause (K.taken out.old).faults (K.taken out.new).faults result }
        ensures plays { OnOk result ((a : Announced) (records : List Record) → PlaysRun self.old.session self.old.management a records
            → PlaysRun self.new.session self.new.management a records) }
        ensures puts { OnOk result ((a : Announced) (records : List Record) → PlaysRun self.old.session self.old.management a records
            → Gathers (text_between self.old.session.plan self.old.session.frames a records self.old.session.tick end) text.old (K.taken out.old) text.new (K.taken out.new)) }
        ensures fails { OnErr result ((a : Announced) (records : List Record) → PlaysRun self.old.session self.old.management a records
            → BreaksOff (text_between self.old.session.plan self.old.session.frames a records self.old.session.tick end) text.old (K.taken out.old) (K.taken out.new)) }
    {
        while self.session.now() < end {
            match self.play_tick(text, out) {
                Ok(()) => {}
                Err(failed) => return Err(failed),
            }
        }
        Ok(())
    }

    /// Appends the lines of the flows of the plan.
    pub fn put_flows<K: Sink>(&self, text: &mut TextBuffer, out: &mut K) -> Result<(), Failed>
        ensures cause { HasCause (K.taken out.old).faults (K.taken out.new).faults result }
        ensures puts { OnOk result ((records : List Record) → StandsFor self.now.session records
            → Gathers (flow_lines self.now.session.plan self.now.session.frames records) text.old (K.taken out.old) text.new (K.taken out.new)) }
        ensures fails { OnErr result ((records : List Record) → StandsFor self.now.session records
            → BreaksOff (flow_lines self.now.session.plan self.now.session.frames records) text.old (K.taken out.old) (K.taken out.new)) }
    {
        put_flows(&self.session, self.flows, text, out)
    }
}
