// A run that is played while its capture is read: each record is handed to a session, and the samples that leave are printed.
ghost use Rattle.std.specs.Prelude.{◌≡◌, ◌+◌, ◌<◌, ◌≤◌, ◌^◌, [], length, take, Err, IfOk, IfErr};
ghost use Rattle.link_base.specs.Faults.{HasCause};
ghost use Rattle.plan_checker.specs.Run.{ticks_of_run};
ghost use Rattle.control_words.specs.Announcement.{IsWithinTable};
ghost use Rattle.plan_checker.specs.WordSize.{word_size};
ghost use Rattle.link_run_capture.specs.Capture.{record_of, most_records, header_of};
ghost use Rattle.link_run_replay.specs.Replayed.{Replayed, begun, begun_if, replay_by, replay_lines, with_record};
ghost use Rattle.link_run_replay.specs.CaptureRun.{IsPlayedTo, KeepsRun, IsNext};

use crate::entry_lines::LINE;
use crate::player::Player;
use link_base::{Failed, NoMemory, Sink};
use link_run_capture::{Arrival, Header, MOST_OCTETS, read_header, read_record};
use link_run_feed::{Feed, Reading, Reason};
use link_text::TextBuffer;
use plan_checker::{Checked, octets_of_word};
use std::alloc::Global;

/// A run that is played while the records of a capture are read.
#[derive(Drop)]
pub struct CaptureRun {
    player: Player,
    /// The ticks in which the run is played.
    ticks: u64,
    /// The tick of the last record.
    tick: u64,
    /// How many more records there may be.
    lines_left: u64,
    /// The octets of the last record, at the front.
    octets: [u8; MOST_OCTETS],
    ghost of_run: { ticks ≡ ticks_of_run player.session.plan player.session.frames },
}

impl CaptureRun {
    /// A run with this header, of a plan that meets the rules. All memory that it needs is taken here.
    pub fn begin(alloc: Global, checked: &Checked, header: Header) -> Result<CaptureRun, NoMemory>
        requires ticks { header.run_ticks ≤ 2 ^ 40 }
        requires within { IsWithinTable (word_size checked.now.option) header.announce }
        ensures begun { IfOk result (λ kept. KeepsRun kept.player.session kept.player.management kept.tick kept.lines_left (begun checked.now header)) }
        ensures few { IfOk result (λ kept. kept.lines_left ≤ 2 ^ 40) }
    {
        Ok(CaptureRun {
            player: Player::begin(alloc, checked, header)?,
            ticks: checked.ticks(header.run_ticks),
            tick: 0,
            lines_left: header.version.most_records(),
            octets: [0; MOST_OCTETS],
        })
    }

    // Reads a record that may come next.
    fn next_record(&mut self, line: &[u8]) -> Result<Arrival, Reason>
        requires { length line.now ≤ 4096 }
        ensures player { self.new.player ≡ self.old.player }
        ensures tick { self.new.tick ≡ self.old.tick }
        ensures left { self.new.lines_left ≡ self.old.lines_left }
        ensures ok { IfOk result (λ arrival. IsNext self.old.tick self.old.lines_left line.now arrival.tick (take arrival.length self.new.octets)) }
        ensures length { IfOk result (λ arrival. arrival.length ≤ 2048) }
        ensures err { IfErr result (λ reason. (s : Replayed) → KeepsRun self.old.player.session self.old.player.management self.old.tick self.old.lines_left s
            → replay_by s (record_of line.now) ≡ Err reason) }
    {
        let arrival = read_record(line, &mut self.octets)?;
        if arrival.tick < self.tick {
            return Err(Reason::Order);
        }
        if self.lines_left == 0 {
            return Err(Reason::Many);
        }
        Ok(arrival)
    }

    // Takes the record whose octets are at hand. The run was played as far as below its tick. A record after the run is that of no packet.
    fn take(&mut self, arrival: Arrival)
        requires some { 0 < self.old.lines_left }
        requires length { arrival.length ≤ 2048 }
        ensures left { self.new.lines_left + 1 ≡ self.old.lines_left }
        ensures stands { (s : Replayed) → IsPlayedTo self.old.player.session self.old.player.management arrival.tick s → s.tick ≤ arrival.tick → self.old.lines_left + length s.records ≡ most_records s.header.version
            → KeepsRun self.new.player.session self.new.player.management self.new.tick self.new.lines_left
            (with_record s (record { tick = arrival.tick; octets = take arrival.length self.old.octets })) }
    {
        if arrival.tick < self.ticks {
            self.player.arrive(&self.octets[..arrival.length]);
        }
        self.tick = arrival.tick;
        self.lines_left -= 1;
    }
}

impl Feed for CaptureRun {
    type Given = Checked;

    ghost State = { Replayed };

    ghost can_open = { λ _. Unit {0} };

    ghost header = { λ p line. begun_if p (header_of (word_size p.option) line) };

    ghost lines = { replay_lines };

    ghost stands = { λ w s. KeepsRun w.player.session w.player.management w.tick w.lines_left s };

    ghost opens = { λ w s text. KeepsRun w.player.session w.player.management w.tick w.lines_left s × (text ≡ []) };

    ghost ended = { λ w s. KeepsRun w.player.session w.player.management w.tick w.lines_left s };

    ghost lines_left = { λ w. w.lines_left };

    fn open(given: &Checked, alloc: Global, line: &[u8]) -> Result<Option<Self>, NoMemory> {
        let width = octets_of_word(given.plan().option);
        match read_header(width, line) {
            Some(header) => match CaptureRun::begin(alloc, given, header) {
                Ok(kept) => Ok(Some(kept)),
                Err(NoMemory) => Err(NoMemory),
            },
            None => Ok(None),
        }
    }

    fn begin<K: Sink>(&mut self, _text: &mut TextBuffer, _out: &mut K) -> Result<(), Failed> {
        Ok(())
    }

    fn may_end(&self) -> bool {
        true
    }

    fn read<K: Sink>(
        &mut self,
        line: &[u8],
        text: &mut TextBuffer,
        out: &mut K,
    ) -> Result<Reading, Failed> {
        let arrival = match self.next_record(line) {
            Ok(arrival) => arrival,
            Err(reason) => return Ok(Reading::Bad(reason)),
        };
        let end = arrival.tick.min(self.ticks);
        match self.player.play_to(end, text, out) {
            Ok(()) => {
                self.take(arrival);
                Ok(Reading::Good)
            }
            Err(failed) => Err(failed),
        }
    }

    fn end<K: Sink>(&mut self, _text: &mut TextBuffer, _out: &mut K) -> Result<(), Failed> {
        Ok(())
    }

    fn close<K: Sink>(&mut self, text: &mut TextBuffer, out: &mut K) -> Result<(), Failed> {
        self.player.play_to(self.ticks, text, out)?;
        self.player.put_flows(text, out)?;
        text.make_room(LINE, out)?;
        text.put(b"end\n");
        Ok(())
    }
}
