// A run that is sent while its samples are read, as a feed.
ghost use Rattle.std.specs.Prelude.{◌≡◌, ◌≤◌, ◌^◌};
ghost use Rattle.link_run_capture.specs.Capture.{run_header};
ghost use Rattle.link_run_capture.specs.declared.header.RunFile.TheVariants as file;
ghost use Rattle.plan_checker.specs.WordSize.{word_size};
ghost use Rattle.link_run_send.specs.Sent.{Sent, begun_if, sent_lines};
ghost use Rattle.link_run_send.specs.SentText.{last_tick};
ghost use Rattle.link_run_send.specs.Sends.{AfterLines, BeforeLines, BetweenLines};

use crate::run_output::{Output, put_first_line, put_last_line};
use crate::sample_run::{SampleRun, Sending};
use link_base::{Failed, NoMemory, Sink};
use link_run_capture::{RunFile, Version, read_run_header};
use link_run_feed::{Ahead, Feed, Reading, Reason};
use link_text::TextBuffer;
use plan_checker::{Checked, octets_of_word};
use std::alloc::Global;

// The ticks of a run that have a text.
fn last_tick(checked: &Checked, output: Output, run_ticks: u64) -> u64
    requires { run_ticks ≤ 2 ^ 40 }
    ensures value { result ≡ last_tick output checked.now run_ticks }
    ensures late { run_ticks ≤ result }
    ensures few { result ≤ 2 ^ 41 }
{
    let frames = run_ticks + u64::from(checked.longest());
    match output {
        Output::Packets => frames + u64::from(checked.plan().playout),
        Output::Symbols => frames,
    }
}

impl Feed for SampleRun {
    type Given = Sending;

    ghost State = { Sent };

    ghost can_open = { λ _. Unit {0} };

    ghost header = { λ given line. begun_if given.output given.checked (run_header file.Samples (word_size given.checked.option) line) };

    ghost lines = { sent_lines };

    ghost stands = { BetweenLines };

    ghost opens = { BeforeLines };

    ghost ended = { AfterLines };

    ghost lines_left = { λ w. w.lines_left };

    fn open(given: &Sending, alloc: Global, line: &[u8]) -> Result<Option<Self>, NoMemory> {
        let width = octets_of_word(given.checked.plan().option);
        match read_run_header(RunFile::Samples, width, line) {
            Some(header) => match SampleRun::begin(alloc, given, header) {
                Ok(run) => Ok(Some(run)),
                Err(NoMemory) => Err(NoMemory),
            },
            None => Ok(None),
        }
    }

    fn begin<K: Sink>(&mut self, text: &mut TextBuffer, out: &mut K) -> Result<(), Failed> {
        match put_first_line(&self.checked, self.output.output, self.header, text, out) {
            Ok(()) => {}
            Err(failed) => return Err(failed),
        }
        match self.header.version {
            Version::One => self.output.make_to(self.due.tick, text, out),
            Version::Two => Ok(()),
        }
    }

    fn may_end(&self) -> bool {
        self.due.tick == self.header.run_ticks
    }

    fn read_ahead(&mut self, octets: &[u8]) -> Ahead {
        self.read_samples(octets)
    }

    fn read<K: Sink>(
        &mut self,
        line: &[u8],
        text: &mut TextBuffer,
        out: &mut K,
    ) -> Result<Reading, Failed> {
        if self.lines_left == 0 {
            return Ok(Reading::Bad(Reason::Many));
        }
        match self.read_line(line, text, out) {
            Ok(Reading::Good) => {
                self.lines_left -= 1;
                Ok(Reading::Good)
            }
            other => other,
        }
    }

    fn end<K: Sink>(&mut self, text: &mut TextBuffer, out: &mut K) -> Result<(), Failed> {
        self.output.make_to(self.due.tick, text, out)
    }

    fn close<K: Sink>(&mut self, text: &mut TextBuffer, out: &mut K) -> Result<(), Failed> {
        // Without all its samples a run is not made to its end.
        if self.due.tick < self.header.run_ticks {
            return Ok(());
        }
        let end = last_tick(&self.checked, self.output.output, self.header.run_ticks);
        match self.output.make_to(end, text, out) {
            Ok(()) => put_last_line(text, out),
            Err(failed) => Err(failed),
        }
    }
}
