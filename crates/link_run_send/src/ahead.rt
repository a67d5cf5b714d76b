// Lines of samples that are read from the octets at hand, several at once.
ghost use Rattle.std.specs.Prelude.{◌≡◌, ◌+◌, ◌<◌, ◌≤◌, IfSome, length, take, true};
ghost use Rattle.link_run_feed.specs.FeedCalls.{ReadsAhead};
ghost use Rattle.sample_bits.specs.SampleRate.{IsSampleWidth};
ghost use Rattle.link_run_send.specs.Ahead.{IsFrontSample, StaysAt, TakesLines};
ghost use Rattle.link_run_send.specs.Sent.{Sent, sent_lines, width_of};
ghost use Rattle.link_run_send.specs.Sends.{BetweenLines};

use crate::due::Due;
use crate::sample_lines::hand_over;
use crate::sample_run::SampleRun;
use link_run_feed::Ahead;
use link_sender_blocks::first_outside;
use link_text::front_pair;
use sample_bits::RawIq;

/// How many octets are at hand at least where a line is read ahead.
const NEAR: usize = 16;

/// The most samples of a carrier that are due at a tick.
const MOST: u64 = 32;

/// The sample of a line that stands before others.
#[derive(Clone, Copy)]
struct FrontSample {
    sample: RawIq,
    /// How many octets the line has, without its line feed.
    length: usize,
}

// The sample of the first line of these octets, where the line is short and the sample has this width.
#[inline(always)]
fn front_sample(octets: &[u8], width: u32) -> Option<FrontSample>
    requires { IsSampleWidth width }
    ensures { IfSome result (λ front. IsFrontSample width octets.now front.sample front.length) }
{
    if octets.len() < NEAR {
        return None;
    }
    let pair = front_pair(octets)?;
    let sample = RawIq {
        i: pair.first,
        q: pair.second,
    };
    match first_outside(&[sample], width) {
        None => Some(FrontSample {
            sample,
            length: pair.length,
        }),
        Some(_) => None,
    }
}

// Takes samples of the carrier that comes next from the lines at the front of these octets, but for the last that is due.
#[inline(always)]
fn read_due(due: &mut Due, width: u32, octets: &[u8]) -> Ahead
    requires width { IsSampleWidth width }
    requires few { due.old.count ≤ 32 }
    requires missing { due.old.come < due.old.count }
    ensures within { result.octets ≤ length octets.now }
    ensures takes { TakesLines width due.old (take result.octets octets.now) result.lines due.new }
{
    let mut ahead = Ahead::NOTHING;
    while due.come + 1 < due.count {
        let Some(front) = front_sample(&octets[ahead.octets..], width) else {
            break;
        };
        due.samples[due.come] = front.sample;
        due.come += 1;
        ahead.octets += front.length + 1;
        ahead.lines += 1;
    }
    ahead
}

impl SampleRun {
    // The bits of the samples of the carrier that comes next.
    fn width(&self) -> u32
        requires { self.now.due.carrier < length self.now.checked.carriers }
        ensures width { result ≡ width_of self.now.checked self.now.due.carrier }
        ensures known { IsSampleWidth result }
    {
        self.checked.plan().carriers.at(self.due.carrier).m
    }

    // Takes samples of the carrier that comes next from the lines at the front of these octets, but for the last that is due.
    #[inline(always)]
    fn read_carrier(&mut self, octets: &[u8]) -> Ahead
        requires sampled { self.old.sampled ≡ true }
        requires missing { self.old.due.tick < self.old.header.run_ticks }
        requires left { 32 ≤ self.old.lines_left }
        ensures within { result.octets ≤ length octets.now }
        ensures reads { (s : Sent) → BetweenLines self.old s
            → ReadsAhead sent_lines s (take result.octets octets.now) result.lines (BetweenLines self.new) }
        ensures same { StaysAt self.old self.new result.lines }
        ensures few { result.lines < 32 }
    {
        let width = self.width();
        let ahead = read_due(&mut self.due, width, octets);
        self.lines_left -= ahead.lines;
        ahead
    }

    // Takes the last sample of the carrier that comes next from the line at the front of these octets, where another carrier has
    // samples due at the same tick, so that no text is settled.
    #[inline(always)]
    fn finish_carrier(&mut self, octets: &[u8]) -> Ahead
        requires sampled { self.old.sampled ≡ true }
        requires missing { self.old.due.tick < self.old.header.run_ticks }
        requires made { self.old.output.sender.tick ≡ self.old.due.tick }
        requires left { 1 ≤ self.old.lines_left }
        ensures within { result.octets ≤ length octets.now }
        ensures reads { (s : Sent) → BetweenLines self.old s
            → ReadsAhead sent_lines s (take result.octets octets.now) result.lines (BetweenLines self.new) }
        ensures same { StaysAt self.old self.new result.lines }
    {
        if self.due.come + 1 < self.due.count {
            return Ahead::NOTHING;
        }
        let Some(front) = front_sample(octets, self.width()) else {
            return Ahead::NOTHING;
        };
        let mut next = self.due;
        next.next(&self.checked, self.header.run_ticks);
        if next.tick != self.due.tick {
            return Ahead::NOTHING;
        }
        self.due.samples[self.due.come] = front.sample;
        hand_over(
            &mut self.output.sender,
            self.due.carrier,
            &self.due.samples[..self.due.count],
        );
        self.due = next;
        self.lines_left -= 1;
        Ahead {
            octets: front.length + 1,
            lines: 1,
        }
    }

    /// Takes the samples of the lines at the front of these octets that settle no text, once one has come: those of a tick, but for
    /// its last. It takes none from a line on that is long, or no sample of the carrier's bits.
    pub fn read_samples(&mut self, octets: &[u8]) -> Ahead
        ensures within { result.octets ≤ length octets.now }
        ensures reads { (s : Sent) → BetweenLines self.old s
            → ReadsAhead sent_lines s (take result.octets octets.now) result.lines (BetweenLines self.new) }
        ensures fewer { self.new.lines_left + result.lines ≤ self.old.lines_left }
    {
        let tick = self.due.tick;
        if !self.sampled || tick == self.header.run_ticks || tick != self.output.sender.now() {
            return Ahead::NOTHING;
        }
        let before = self.lines_left;
        let mut end = 0;
        while self.lines_left > MOST {
            end += self.read_carrier(&octets[end..]).octets;
            let last = self.finish_carrier(&octets[end..]);
            end += last.octets;
            if last.lines == 0 {
                break;
            }
        }
        Ahead {
            octets: end,
            lines: before - self.lines_left,
        }
    }
}
