// The lines of a file of samples, taken one after another.
ghost use Rattle.std.specs.Prelude.{◌≡◌, ◌+◌, ◌*◌, ◌<◌, ◌≤◌, ◌^◌, [], All, length, take, slice_index, Ok, Err, IfOk, IfErr, OnOk, OnErr, false};
ghost use Rattle.control_words.specs.Announcement.{IsWithinTable};
ghost use Rattle.link_base.specs.Faults.{HasCause};
ghost use Rattle.link_run_feed.specs.FeedCalls.{BreaksOffAt, IsReadAs};
ghost use Rattle.link_sender.specs.HandedIn.{with_samples};
ghost use Rattle.link_sender.specs.Senders.{StandsFor, TakesOn};
ghost use Rattle.link_sender.specs.Stream.{Stream};
ghost use Rattle.link_text.specs.Fields.{at_first_space};
ghost use Rattle.link_text.specs.Gathered.{BreaksOff, Gathers};
ghost use Rattle.plan_checker.specs.Run.{samples_before, samples_due};
ghost use Rattle.plan_checker.specs.WordSize.{word_size};
ghost use Rattle.sample_bits.specs.Samples.{IsWithin};
ghost use Rattle.link_run_send.specs.ComesNext.{ComesLater, HandedTo, IsCounted};
ghost use Rattle.link_run_send.specs.FrameWord.{NamesNoFrame};
ghost use Rattle.link_run_send.specs.SendsRun.{SendsRun};
ghost use Rattle.link_run_send.specs.SentText.{text_between};
ghost use Rattle.link_run_send.specs.Sent.{Sent, begun, by_version, fast_line, sample_line, slow_line, width_of, word_and_rest};
ghost use Rattle.link_run_send.specs.Sends.{BeforeLines, BetweenLines, GoesOn, IsNextSample, IsQueuedAs, after_sample};

use crate::due::Due;
use crate::run_output::RunOutput;
use crate::sample_line::read_sample;
use crate::sample_run::{SampleRun, Sending};
use link_base::{Failed, NoMemory, Sink};
use link_run_capture::{Header, Version};
use link_run_feed::{Reading, Reason};
use link_sender::AnySender;
use link_sender_blocks::first_outside;
use link_text::{TextBuffer, at_first_space, octets};
use plan_checker::Checked;
use sample_bits::RawIq;
use std::alloc::Global;

/// The octets of the longest frame of the slow channel.
const LONGEST_SLOW: usize = 1500;

/// The octets of the longest frame of the fast channel.
const LONGEST_FAST: usize = 1522;

/// How many octets the digits of a line spell at most.
const MOST_OCTETS: usize = 2048;

/// The room of the queue of a management channel.
const QUEUE: usize = 8192;

/// More lines than the longest run has.
const LINES: u64 = 1 << 40;

/// Hands in the samples of carrier `c` that are due, each of the carrier's bits.
pub fn hand_over(sender: &mut AnySender, c: usize, samples: &[RawIq])
    requires carrier { c < length sender.old.plan.carriers }
    requires run { sender.old.tick < sender.old.frames }
    requires due { length samples.now ≡ samples_due sender.old.plan c sender.old.tick }
    requires once { slice_index sender.old.handed c ≡ samples_before sender.old.plan c sender.old.tick }
    requires within { All (IsWithin (width_of sender.old.plan c)) samples.now }
    ensures ok { TakesOn sender.old sender.new c }
    ensures stands { (σ : Stream) → StandsFor sender.old σ → StandsFor sender.new (with_samples σ c samples.now) }
{
    let _ = sender.hand_in(c, samples);
}

// Hands in the samples of the carrier that came, all that are due, and makes the ticks that have all their samples then.
fn go_on<K: Sink>(
    output: &mut RunOutput,
    due: &mut Due,
    checked: &Checked,
    run_ticks: u64,
    text: &mut TextBuffer,
    out: &mut K,
) -> Result<(), Failed>
    requires plan { output.old.sender.plan ≡ checked.now }
    requires run { output.old.sender.frames ≡ run_ticks }
    requires short { run_ticks ≤ 1048576 }
    requires missing { due.old.tick < run_ticks }
    requires tick { output.old.sender.tick ≡ due.old.tick }
    requires carrier { due.old.carrier < length checked.now.carriers }
    requires few { due.old.count ≤ 32 }
    requires count { due.old.count ≡ samples_due checked.now due.old.carrier due.old.tick }
    requires handed { HandedTo checked.now output.old.sender.handed due.old.tick due.old.carrier }
    requires within { All (IsWithin (width_of checked.now due.old.carrier)) (take due.old.count due.old.samples) }
    ensures later { ComesLater checked.now run_ticks output.new.sender.handed due.old due.new }
    ensures none { take due.new.come due.new.samples ≡ [] }
    ensures counted { (σ : Stream) → StandsFor output.old.sender σ
        → IsCounted checked.now (with_samples σ due.old.carrier (take due.old.count due.old.samples)) output.new.sender.handed }
    ensures plan { output.new.sender.plan ≡ output.old.sender.plan }
    ensures frames { output.new.sender.frames ≡ output.old.sender.frames }
    ensures announcement { output.new.sender.announcement ≡ output.old.sender.announcement }
    ensures output { output.new.output ≡ output.old.output }
    ensures early { output.new.sender.tick ≤ due.new.tick }
    ensures tick { OnOk result (output.new.sender.tick ≡ due.new.tick) }
    ensures cause { HasCause (K.taken out.old).faults (K.taken out.new).faults result }
    ensures sends { OnOk result ((σ : Stream) → SendsRun output.old.sender output.old.output output.old.rd σ
        → SendsRun output.new.sender output.new.output output.new.rd (with_samples σ due.old.carrier (take due.old.count due.old.samples))) }
    ensures puts { OnOk result ((σ : Stream) → SendsRun output.old.sender output.old.output output.old.rd σ
        → Gathers (text_between output.old.output checked.now run_ticks (with_samples σ due.old.carrier (take due.old.count due.old.samples)) due.old.tick due.new.tick) text.old (K.taken out.old) text.new (K.taken out.new)) }
    ensures fails { OnErr result ((σ : Stream) → SendsRun output.old.sender output.old.output output.old.rd σ
        → BreaksOff (text_between output.old.output checked.now run_ticks (with_samples σ due.old.carrier (take due.old.count due.old.samples)) due.old.tick due.new.tick) text.old (K.taken out.old) (K.taken out.new)) }
{
    hand_over(&mut output.sender, due.carrier, &due.samples[..due.count]);
    due.next(checked, run_ticks);
    output.make_to(due.tick, text, out)
}

// The text before the first space of a line and the text after it, or the whole line and none.
fn word_and_rest(line: &[u8]) -> (&[u8], &[u8])
    requires { length line.now ≤ 4096 }
    ensures fields { (result.0.now, result.1.now) ≡ word_and_rest line.now (at_first_space line.now) }
    ensures short { length result.1.now ≤ 4096 }
{
    match at_first_space(line) {
        Some(fields) => fields,
        None => (line, b""),
    }
}

// Whether a line may be that of a frame. The line of a sample is none: it begins with a digit or a minus sign, and need not
// be searched for the word.
#[inline(always)]
#[tactic(auto, using(crate::proofs::FrameWords::names_no_frame))]
fn may_be_frame(line: &[u8]) -> bool
    ensures { result ≡ false → NamesNoFrame line.now }
{
    !line.is_empty() && (line[0] == b's' || line[0] == b'f')
}

impl SampleRun {
    /// A run with this header, before its first line. All memory that it needs is taken here.
    pub fn begin(alloc: Global, given: &Sending, header: Header) -> Result<SampleRun, NoMemory>
        requires run { header.run_ticks ≤ 1048576 }
        requires announced { IsWithinTable (word_size given.now.checked.option) header.announce }
        ensures opens { IfOk result (λ w. BeforeLines w (begun given.now.output given.now.checked header).0 (begun given.now.output given.now.checked header).1) }
        ensures few { IfOk result (λ w. w.lines_left ≤ 2 ^ 40) }
    {
        Ok(SampleRun {
            checked: given.checked.copy(alloc)?,
            header,
            output: RunOutput::begin(alloc, &given.checked, given.output, header)?,
            due: Due::begin(&given.checked, header.run_ticks),
            sampled: false,
            room: 2 * QUEUE,
            lines_left: LINES,
        })
    }

    // The sample of a line that may come next.
    fn next_sample(&self, line: &[u8]) -> Result<RawIq, Reason>
        ensures missing { IfOk result (λ _. self.now.due.tick < self.now.header.run_ticks) }
        ensures within { IfOk result (IsWithin (width_of self.now.checked self.now.due.carrier)) }
        ensures ok { IfOk result (λ sample. (s : Sent) → BetweenLines self.now s
            → IsNextSample self.now s line.now sample) }
        ensures err { IfErr result (λ reason. (s : Sent) → BetweenLines self.now s
            → sample_line s line.now ≡ Err reason) }
    {
        if self.due.tick == self.header.run_ticks {
            return Err(Reason::Count);
        }
        let Some(sample) = read_sample(line) else {
            return Err(Reason::Number);
        };
        let width = self.checked.plan().carriers.at(self.due.carrier).m;
        match first_outside(&[sample], width) {
            None => Ok(sample),
            Some(_) => Err(Reason::Range),
        }
    }

    // Takes a sample, and makes the ticks that have all their samples then.
    fn take<K: Sink>(
        &mut self,
        sample: RawIq,
        text: &mut TextBuffer,
        out: &mut K,
    ) -> Result<(), Failed>
        requires missing { self.old.due.tick < self.old.header.run_ticks }
        requires within { IsWithin (width_of self.old.checked self.old.due.carrier) sample }
        ensures cause { HasCause (K.taken out.old).faults (K.taken out.new).faults result }
        ensures left { self.new.lines_left ≡ self.old.lines_left }
        ensures takes { OnOk result ((s : Sent) → BetweenLines self.old s → GoesOn self.old self.new (after_sample self.old s sample).0 × Gathers (after_sample self.old s sample).1 text.old (K.taken out.old) text.new (K.taken out.new)) }
        ensures fails { OnErr result ((s : Sent) → BetweenLines self.old s → BreaksOff (after_sample self.old s sample).1 text.old (K.taken out.old) (K.taken out.new)) }
    {
        self.sampled = true;
        match self.output.make_to(self.due.tick, text, out) {
            Ok(()) => {}
            Err(failed) => return Err(failed),
        }
        self.due.samples[self.due.come] = sample;
        self.due.come += 1;
        if self.due.come < self.due.count {
            return Ok(());
        }
        go_on(
            &mut self.output,
            &mut self.due,
            &self.checked,
            self.header.run_ticks,
            text,
            out,
        )
    }

    // Reads a sample.
    fn read_sample_line<K: Sink>(
        &mut self,
        line: &[u8],
        text: &mut TextBuffer,
        out: &mut K,
    ) -> Result<Reading, Failed>
        requires { length line.now ≤ 4096 }
        ensures cause { HasCause (K.taken out.old).faults (K.taken out.new).faults result }
        ensures left { self.new.lines_left ≡ self.old.lines_left }
        ensures reads { IfOk result (λ reading. (s : Sent) → BetweenLines self.old s
            → IsReadAs (sample_line s line.now) reading (λ next. GoesOn self.old self.new next) text.old (K.taken out.old) text.new (K.taken out.new)) }
        ensures fails { OnErr result ((s : Sent) → BetweenLines self.old s → BreaksOffAt (sample_line s line.now) text.old (K.taken out.old) (K.taken out.new)) }
    {
        match self.next_sample(line) {
            Ok(sample) => match self.take(sample, text, out) {
                Ok(()) => Ok(Reading::Good),
                Err(failed) => Err(failed),
            },
            Err(reason) => Ok(Reading::Bad(reason)),
        }
    }

    // Queues a frame of the slow channel.
    fn read_slow(&mut self, digits: &[u8]) -> Reading
        requires version { self.old.header.version ≡ Version.Two }
        requires short { length digits.now ≤ 4096 }
        ensures left { self.new.lines_left ≡ self.old.lines_left }
        ensures reads { (s : Sent) → BetweenLines self.old s → IsQueuedAs (slow_line s digits.now) result (λ next. GoesOn self.old self.new next) }
    {
        if self.sampled || self.output.sender.now() > 0 || self.header.announce.hdlc == 0 {
            return Reading::Bad(Reason::Word);
        }
        let mut frame = [0; MOST_OCTETS];
        let Some(length) = octets(digits, &mut frame) else {
            return Reading::Bad(Reason::Hex);
        };
        if length > LONGEST_SLOW {
            return Reading::Bad(Reason::Many);
        }
        match self.output.sender.queue_slow(&frame[..length]) {
            Ok(()) => {
                self.room = self.room.saturating_sub(length + 2);
                Reading::Good
            }
            Err(_) => Reading::Bad(Reason::Many),
        }
    }

    // Queues a frame of the fast channel.
    fn read_fast(&mut self, digits: &[u8]) -> Reading
        requires version { self.old.header.version ≡ Version.Two }
        requires short { length digits.now ≤ 4096 }
        ensures left { self.new.lines_left ≡ self.old.lines_left }
        ensures reads { (s : Sent) → BetweenLines self.old s → IsQueuedAs (fast_line s digits.now) result (λ next. GoesOn self.old self.new next) }
    {
        if self.sampled || self.output.sender.now() > 0 || self.header.announce.pointer == 0 {
            return Reading::Bad(Reason::Word);
        }
        let mut frame = [0; MOST_OCTETS];
        let Some(length) = octets(digits, &mut frame) else {
            return Reading::Bad(Reason::Hex);
        };
        if length > LONGEST_FAST {
            return Reading::Bad(Reason::Many);
        }
        match self.output.sender.queue_fast(&frame[..length]) {
            Ok(()) => {
                self.room = self.room.saturating_sub(length + 2);
                Reading::Good
            }
            Err(_) => Reading::Bad(Reason::Many),
        }
    }

    /// Reads a line, whose form the version of the file says.
    pub fn read_line<K: Sink>(
        &mut self,
        line: &[u8],
        text: &mut TextBuffer,
        out: &mut K,
    ) -> Result<Reading, Failed>
        requires { length line.now ≤ 4096 }
        ensures cause { HasCause (K.taken out.old).faults (K.taken out.new).faults result }
        ensures left { self.new.lines_left ≡ self.old.lines_left }
        ensures reads { IfOk result (λ reading. (s : Sent) → BetweenLines self.old s
            → IsReadAs (by_version s.header.version s line.now) reading (λ next. GoesOn self.old self.new next) text.old (K.taken out.old) text.new (K.taken out.new)) }
        ensures fails { OnErr result ((s : Sent) → BetweenLines self.old s → BreaksOffAt (by_version s.header.version s line.now) text.old (K.taken out.old) (K.taken out.new)) }
    {
        match self.header.version {
            Version::One => self.read_sample_line(line, text, out),
            Version::Two => {
                if !may_be_frame(line) {
                    return self.read_sample_line(line, text, out);
                }
                let (word, digits) = word_and_rest(line);
                if word == b"slow".as_slice() {
                    return Ok(self.read_slow(digits));
                }
                if word == b"fast".as_slice() {
                    return Ok(self.read_fast(digits));
                }
                self.read_sample_line(line, text, out)
            }
        }
    }
}
