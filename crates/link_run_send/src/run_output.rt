// A run that is sent tick by tick, and the text of its ticks.
ghost use Rattle.std.specs.Prelude.{◌≡◌, ◌+◌, ◌*◌, ◌<◌, ◌≤◌, ◌%◌, ◌^◌, ◌++◌, ◌∷◌, [], codes, decimal as decimal_text, length, replicate, slice_get, Some, IfOk, OnOk, OnErr};
ghost use Rattle.carrier_plan.specs.declared.plan.Flow.{Flow as OneFlow};
ghost use Rattle.control_words.specs.Announcement.{IsWithinTable};
ghost use Rattle.hex.specs.Hex.{encode_lower};
ghost use Rattle.line_code.specs.Line.{disparity_after_all, frame_characters, symbols_of};
ghost use Rattle.line_code.specs.Packed.{symbols_in};
ghost use Rattle.line_code.specs.declared.characters.Rd.TheVariants.{Minus};
ghost use Rattle.link_base.specs.Faults.{HasCause};
ghost use Rattle.link_sender.specs.HandedIn.{nothing_yet};
ghost use Rattle.link_sender.specs.Senders.{StandsFor};
ghost use Rattle.link_sender.specs.Stream.{Stream};
ghost use Rattle.link_sender.specs.Whole.{disparity_before, packed_symbols};
ghost use Rattle.link_text.specs.Gathered.{Gathers, BreaksOff, text_capacity};
ghost use Rattle.link_text.specs.Printed.{ended};
ghost use Rattle.plan_checker.specs.Rules.{IsGood};
ghost use Rattle.plan_checker.specs.WordSize.{word_size};
ghost use Rattle.link_run_send.specs.SentText.{first_line, flow_text, packets_text, symbols_text, tick_text, text_between};
ghost use Rattle.link_run_send.specs.SendsRun.{KeepsSender, SendsRun};

use line_code::Rd;
use link_base::{Failed, NoMemory, Sink};
use link_run_capture::{Header, put_header, put_record};
use link_sender::AnySender;
use link_text::TextBuffer;
use plan_checker::Checked;
use roe_mappers::spell;
use std::alloc::Global;

/// How many octets the line of a packet has at most.
const RECORD: usize = 3072;

/// How many octets the line of a frame's symbols has at most.
const SYMBOLS: usize = 1024;

/// How many octets the first line and the last one have at most.
const LINE: usize = 128;

/// The octets of the symbols of the longest frame.
const LONGEST: usize = 320;

/// What is written of a run.
#[derive(Clone, Copy, Debug, PartialEq, Eq)]
pub enum Output {
    /// The packets, as a capture.
    Packets,
    /// The symbols of the basic frames on the line.
    Symbols,
}

/// A run that is sent, and what is written of it.
#[derive(Drop)]
pub struct RunOutput {
    pub sender: AnySender,
    pub output: Output,
    /// The flows of the plan.
    flows: usize,
    /// The disparity after the frame that was made last, where symbols are written.
    pub rd: Rd,
    ghost of_flows: { flows ≡ length sender.plan.flows },
}

// How many flows the plan has.
fn flows_of(checked: &Checked) -> usize
    ensures count { result ≡ length checked.now.flows }
    ensures good { IsGood checked.now }
{
    checked.plan().flows.len()
}

impl RunOutput {
    /// A run with this header, of a plan that meets the rules, before its first tick. All memory that it needs is taken here.
    pub fn begin(
        alloc: Global,
        checked: &Checked,
        output: Output,
        header: Header,
    ) -> Result<RunOutput, NoMemory>
        requires run { header.run_ticks ≤ 2 ^ 40 }
        requires announced { IsWithinTable (word_size checked.now.option) header.announce }
        ensures plan { IfOk result (λ w. w.sender.plan ≡ checked.now) }
        ensures frames { IfOk result (λ w. w.sender.frames ≡ header.run_ticks) }
        ensures announcement { IfOk result (λ w. w.sender.announcement ≡ header.announce) }
        ensures tick { IfOk result (λ w. w.sender.tick ≡ 0) }
        ensures handed { IfOk result (λ w. w.sender.handed ≡ replicate (length checked.now.carriers) 0) }
        ensures output { IfOk result (λ w. w.output ≡ output) }
        ensures disparity { IfOk result (λ w. w.rd ≡ Minus) }
        ensures good { IfOk result (λ _. IsGood checked.now) }
        ensures stands { IfOk result (λ w. StandsFor w.sender (nothing_yet checked.now header.announce)) }
    {
        Ok(RunOutput {
            sender: AnySender::begin_with(alloc, checked, header.run_ticks, header.announce)?,
            output,
            flows: flows_of(checked),
            rd: Rd::Minus,
        })
    }

    // Appends the packet of flow `f` whose window opens at tick `tick`, which was made last, if there is one.
    fn put_flow<K: Sink>(
        &self,
        f: usize,
        tick: u64,
        text: &mut TextBuffer,
        out: &mut K,
    ) -> Result<(), Failed>
        requires flow { f < length self.now.sender.plan.flows }
        requires tick { self.now.sender.tick ≡ tick + 1 }
        ensures cause { HasCause (K.taken out.old).faults (K.taken out.new).faults result }
        ensures puts { OnOk result ((σ : Stream) (flow : OneFlow) → IsGood self.now.sender.plan → StandsFor self.now.sender σ → slice_get self.now.sender.plan.flows f ≡ Some flow
            → Gathers (flow_text self.now.sender.plan self.now.sender.frames σ tick flow) text.old (K.taken out.old) text.new (K.taken out.new)) }
        ensures fails { OnErr result ((σ : Stream) (flow : OneFlow) → IsGood self.now.sender.plan → StandsFor self.now.sender σ → slice_get self.now.sender.plan.flows f ≡ Some flow
            → BreaksOff (flow_text self.now.sender.plan self.now.sender.frames σ tick flow) text.old (K.taken out.old) (K.taken out.new)) }
    {
        let Some(packet) = self.sender.ready(f) else {
            return Ok(());
        };
        match text.make_room(RECORD, out) {
            Ok(()) => {
                put_record(tick, packet, text);
                Ok(())
            }
            Err(failed) => Err(failed),
        }
    }

    // Appends the packets whose windows open at tick `tick`, which was made last.
    fn put_packets<K: Sink>(
        &self,
        tick: u64,
        text: &mut TextBuffer,
        out: &mut K,
    ) -> Result<(), Failed>
        requires { self.now.sender.tick ≡ tick + 1 }
        ensures cause { HasCause (K.taken out.old).faults (K.taken out.new).faults result }
        ensures puts { OnOk result ((σ : Stream) → IsGood self.now.sender.plan → StandsFor self.now.sender σ
            → Gathers (packets_text self.now.sender.plan self.now.sender.frames σ tick) text.old (K.taken out.old) text.new (K.taken out.new)) }
        ensures fails { OnErr result ((σ : Stream) → IsGood self.now.sender.plan → StandsFor self.now.sender σ
            → BreaksOff (packets_text self.now.sender.plan self.now.sender.frames σ tick) text.old (K.taken out.old) (K.taken out.new)) }
    {
        for f in 0..self.flows {
            match self.put_flow(f, tick, text, out) {
                Ok(()) => {}
                Err(failed) => return Err(failed),
            }
        }
        Ok(())
    }

    // Appends the symbols of the frame of tick `tick`, which was made last.
    fn put_symbols<K: Sink>(
        &mut self,
        tick: u64,
        text: &mut TextBuffer,
        out: &mut K,
    ) -> Result<(), Failed>
        requires { self.old.sender.tick ≡ tick + 1 }
        ensures sender { self.new.sender ≡ self.old.sender }
        ensures output { self.new.output ≡ self.old.output }
        ensures cause { HasCause (K.taken out.old).faults (K.taken out.new).faults result }
        ensures disparity { OnOk result ((σ : Stream) → IsGood self.old.sender.plan → StandsFor self.old.sender σ → self.old.rd ≡ disparity_before self.old.sender.plan σ tick
            → self.new.rd ≡ disparity_before self.old.sender.plan σ (tick + 1)) }
        ensures puts { OnOk result ((σ : Stream) → IsGood self.old.sender.plan → StandsFor self.old.sender σ → self.old.rd ≡ disparity_before self.old.sender.plan σ tick
            → Gathers (symbols_text self.old.sender.plan σ tick) text.old (K.taken out.old) text.new (K.taken out.new)) }
        ensures fails { OnErr result ((σ : Stream) → BreaksOff (symbols_text self.old.sender.plan σ tick) text.old (K.taken out.old) (K.taken out.new)) }
    {
        match text.make_room(SYMBOLS, out) {
            Ok(()) => {
                self.rd = put_frame(self.sender.frame(), tick, self.rd, text);
                Ok(())
            }
            Err(failed) => Err(failed),
        }
    }

    // Makes the next tick, and appends its text.
    fn make_tick<K: Sink>(&mut self, text: &mut TextBuffer, out: &mut K) -> Result<(), Failed>
        requires { self.old.sender.tick < 2 ^ 41 }
        ensures same { KeepsSender self.old.sender self.new.sender }
        ensures output { self.new.output ≡ self.old.output }
        ensures tick { self.new.sender.tick ≡ self.old.sender.tick + 1 }
        ensures cause { HasCause (K.taken out.old).faults (K.taken out.new).faults result }
        ensures sends { OnOk result ((σ : Stream) → SendsRun self.old.sender self.old.output self.old.rd σ → SendsRun self.new.sender self.new.output self.new.rd σ) }
        ensures puts { OnOk result ((σ : Stream) → SendsRun self.old.sender self.old.output self.old.rd σ
            → Gathers (tick_text self.old.output self.old.sender.plan self.old.sender.frames σ self.old.sender.tick) text.old (K.taken out.old) text.new (K.taken out.new)) }
        ensures fails { OnErr result ((σ : Stream) → SendsRun self.old.sender self.old.output self.old.rd σ
            → BreaksOff (tick_text self.old.output self.old.sender.plan self.old.sender.frames σ self.old.sender.tick) text.old (K.taken out.old) (K.taken out.new)) }
    {
        let tick = self.sender.now();
        self.sender.tick();
        match self.output {
            Output::Packets => self.put_packets(tick, text, out),
            Output::Symbols => self.put_symbols(tick, text, out),
        }
    }

    /// Makes the ticks before tick `end`, and appends their text.
    pub fn make_to<K: Sink>(
        &mut self,
        end: u64,
        text: &mut TextBuffer,
        out: &mut K,
    ) -> Result<(), Failed>
        requires { end ≤ 2 ^ 41 }
        ensures same { KeepsSender self.old.sender self.new.sender }
        ensures output { self.new.output ≡ self.old.output }
        ensures tick { OnOk result (self.old.sender.tick ≤ end → self.new.sender.tick ≡ end) }
        ensures late { self.old.sender.tick ≤ end → self.new.sender.tick ≤ end }
        ensures cause { HasCause (K.taken out.old).faults (K.taken out.new).faults result }
        ensures sends { OnOk result ((σ : Stream) → SendsRun self.old.sender self.old.output self.old.rd σ → SendsRun self.new.sender self.new.output self.new.rd σ) }
        ensures puts { OnOk result ((σ : Stream) → SendsRun self.old.sender self.old.output self.old.rd σ
            → Gathers (text_between self.old.output self.old.sender.plan self.old.sender.frames σ self.old.sender.tick end) text.old (K.taken out.old) text.new (K.taken out.new)) }
        ensures fails { OnErr result ((σ : Stream) → SendsRun self.old.sender self.old.output self.old.rd σ
            → BreaksOff (text_between self.old.output self.old.sender.plan self.old.sender.frames σ self.old.sender.tick end) text.old (K.taken out.old) (K.taken out.new)) }
    {
        while self.sender.now() < end {
            match self.make_tick(text, out) {
                Ok(()) => {}
                Err(failed) => return Err(failed),
            }
        }
        Ok(())
    }
}

// Appends the symbols of a frame from this disparity on, and says the disparity after them.
fn put_frame(frame: &[u8], tick: u64, rd: Rd, text: &mut TextBuffer) -> Rd
    requires groups { length frame.now % 4 ≡ 0 }
    requires few { length frame.now ≤ 256 }
    requires room { length text.old + 1024 ≤ text_capacity }
    ensures disparity { result ≡ disparity_after_all rd (frame_characters tick frame.now) }
    ensures text { text.new ≡ text.old ++ ended (encode_lower (packed_symbols (symbols_of rd (frame_characters tick frame.now)))) }
{
    let mut symbols = [0; LONGEST];
    let spelled = &mut symbols[..frame.len() / 4 * 5];
    let disparity = spell(frame, tick, rd, spelled);
    put_line(spelled, text);
    disparity
}

// Appends the line of symbols that stand in these octets.
fn put_line(octets: &[u8], text: &mut TextBuffer)
    requires groups { length octets.now % 5 ≡ 0 }
    requires room { length text.old + 2 * length octets.now + 1 ≤ text_capacity }
    ensures { text.new ≡ text.old ++ ended (encode_lower (packed_symbols (symbols_in octets.now))) }
{
    text.put_hex(octets);
    text.put(b"\n");
}

// Appends the first line of the symbols of so many frames.
fn put_line_header(option: u32, frames: u64, text: &mut TextBuffer)
    requires { length text.old + 128 ≤ text_capacity }
    ensures { text.new ≡ text.old ++ ended (codes "line " ++ decimal_text option ++ codes " " ++ decimal_text frames) }
{
    text.put(b"line ");
    text.put_number(u64::from(option));
    text.put(b" ");
    text.put_number(frames);
    text.put(b"\n");
}

// Appends the first line, where there is room.
fn put_first(checked: &Checked, output: Output, header: Header, text: &mut TextBuffer)
    requires run { header.run_ticks ≤ 2 ^ 40 }
    requires room { length text.old + 128 ≤ text_capacity }
    ensures { text.new ≡ text.old ++ first_line output checked.now header }
{
    match output {
        Output::Packets => put_header(header, text),
        Output::Symbols => put_line_header(
            checked.plan().option,
            header.run_ticks + u64::from(checked.longest()),
            text,
        ),
    }
}

/// Appends the first line.
pub fn put_first_line<K: Sink>(
    checked: &Checked,
    output: Output,
    header: Header,
    text: &mut TextBuffer,
    out: &mut K,
) -> Result<(), Failed>
    requires { header.run_ticks ≤ 2 ^ 40 }
    ensures cause { HasCause (K.taken out.old).faults (K.taken out.new).faults result }
    ensures puts { OnOk result (Gathers (first_line output checked.now header) text.old (K.taken out.old) text.new (K.taken out.new)) }
    ensures fails { OnErr result (BreaksOff (first_line output checked.now header) text.old (K.taken out.old) (K.taken out.new)) }
{
    match text.make_room(LINE, out) {
        Ok(()) => {
            put_first(checked, output, header, text);
            Ok(())
        }
        Err(failed) => Err(failed),
    }
}

/// Appends the last line.
pub fn put_last_line<K: Sink>(text: &mut TextBuffer, out: &mut K) -> Result<(), Failed>
    ensures cause { HasCause (K.taken out.old).faults (K.taken out.new).faults result }
    ensures puts { OnOk result (Gathers (ended (codes "end")) text.old (K.taken out.old) text.new (K.taken out.new)) }
    ensures fails { OnErr result (BreaksOff (ended (codes "end")) text.old (K.taken out.old) (K.taken out.new)) }
{
    match text.make_room(LINE, out) {
        Ok(()) => {
            text.put(b"end\n");
            Ok(())
        }
        Err(failed) => Err(failed),
    }
}
