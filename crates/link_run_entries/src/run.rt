// The samples of one carrier that leave at one tick, as text.
ghost use Rattle.std.specs.Prelude.{◌≡◌, ◌+◌, ◌*◌, ◌^◌, ◌<◌, ◌≤◌, ◌++◌, ◌==◌, if◌then◌else◌, length, Some, None};
ghost use Rattle.std.specs.Int.{bit_at};
ghost use Rattle.link_text.specs.Gathered.{text_capacity};
ghost use Rattle.link_text.specs.Laid.{Lays};
ghost use Rattle.link_run_entries.specs.Fronts.{rest_text};
ghost use Rattle.link_run_entries.specs.SampleLines.{sample_line, run_lines};

use crate::digits::put_value;
use crate::front::{Front, TickText};
use crate::store::{put_octet, store};
use link_text::{Lay, TextBuffer};
use sample_bits::RawIq;

/// How many octets behind a text may be written for a run.
pub const ROOM: usize = 2560;

// Lays the rest of the line of a sample out.
#[inline(always)]
fn put_sample(octets: &mut [u8], at: usize, sample: RawIq) -> usize
    requires { at + 64 ≤ length octets.old }
    ensures lays { Lays (rest_text (Some sample)) octets.old at octets.new result }
    ensures short { result ≤ at + 25 }
{
    let end = put_value(octets, at, sample.i);
    let end = put_value(octets, end, sample.q);
    put_octet(octets, end, b'\n')
}

// Lays the rest of the line of a marked sample out.
#[inline(always)]
fn put_mark(octets: &mut [u8], at: usize) -> usize
    requires { at + 3 ≤ length octets.old }
    ensures lays { Lays (rest_text None) octets.old at octets.new result }
    ensures short { result ≤ at + 3 }
{
    store(octets, at, *b" -\n");
    at + 3
}

// Lays the rest of the line of a sample out, which may be marked.
#[inline(always)]
fn put_rest(octets: &mut [u8], at: usize, marked: bool, sample: RawIq) -> usize
    requires { at + 64 ≤ length octets.old }
    ensures lays { Lays (rest_text (if marked then None else Some sample)) octets.old at octets.new result }
    ensures short { result ≤ at + 25 }
{
    if marked {
        return put_mark(octets, at);
    }
    put_sample(octets, at, sample)
}

// Lays the line of a sample out.
#[inline(always)]
fn put_line(octets: &mut [u8], at: usize, front: &Front, sample: RawIq) -> usize
    requires room { at + 128 ≤ length octets.old }
    requires number { 10 * front.now.tens + front.now.last < 2 ^ 64 }
    ensures lays { Lays (sample_line front.now.tick front.now.carrier (10 * front.now.tens + front.now.last) (Some sample)) octets.old at octets.new result }
    ensures short { result ≤ at + 78 }
{
    let place = front.put(octets, at);
    put_sample(octets, place, sample)
}

// Lays the line of a sample out, which may be marked.
#[inline(always)]
fn put_line_or_mark(
    octets: &mut [u8],
    at: usize,
    front: &Front,
    marked: bool,
    sample: RawIq,
) -> usize
    requires room { at + 128 ≤ length octets.old }
    requires number { 10 * front.now.tens + front.now.last < 2 ^ 64 }
    ensures lays { Lays (sample_line front.now.tick front.now.carrier (10 * front.now.tens + front.now.last) (if marked then None else Some sample)) octets.old at octets.new result }
    ensures short { result ≤ at + 78 }
{
    let place = front.put(octets, at);
    put_rest(octets, place, marked, sample)
}

// Whether a sample is marked.
#[inline(always)]
fn is_marked(marks: u32, i: usize) -> bool
    requires { i < 32 }
    ensures { result ≡ (bit_at marks i == 1) }
{
    marks >> i & 1 == 1
}

// A run of samples, which has text.
#[derive(Drop)]
struct Run<'a> {
    tick: &'a TickText,
    carrier: u32,
    number: u64,
    samples: &'a [RawIq],
    marks: u32,
    ghost few: { length samples.now ≤ 32 },
    ghost numbers: { number + length samples.now < 2 ^ 64 },
}

impl Run<'_> {
    // Lays the lines out where no sample is marked.
    fn lay_samples(&self, octets: &mut [u8], at: usize) -> usize
        requires { at + 2560 ≤ length octets.old }
        ensures { Lays (run_lines self.now.tick.now.tick self.now.carrier self.now.number 0 self.now.samples.now (length self.now.samples.now)) octets.old at octets.new result }
    {
        let mut front = Front::new(self.tick, self.carrier, self.number);
        let mut end = at;
        for sample in self.samples {
            end = put_line(octets, end, &front, *sample);
            front.advance();
        }
        end
    }

    // Lays the lines out where a sample may be marked.
    fn lay_marked(&self, octets: &mut [u8], at: usize) -> usize
        requires { at + 2560 ≤ length octets.old }
        ensures { Lays (run_lines self.now.tick.now.tick self.now.carrier self.now.number self.now.marks self.now.samples.now (length self.now.samples.now)) octets.old at octets.new result }
    {
        let mut front = Front::new(self.tick, self.carrier, self.number);
        let mut end = at;
        for (i, sample) in self.samples.iter().enumerate() {
            end = put_line_or_mark(octets, end, &front, is_marked(self.marks, i), *sample);
            front.advance();
        }
        end
    }
}

impl Lay for Run<'_> {
    ghost use Rattle.std.specs.Prelude.{length};
    ghost use Rattle.link_run_entries.specs.SampleLines.{run_lines};

    ghost text = { λ run. run_lines run.tick.now.tick run.carrier run.number run.marks run.samples.now (length run.samples.now) };

    ghost room = { λ _. 2560 };

    #[inline]
    fn lay(&self, octets: &mut [u8], at: usize) -> usize {
        if self.samples.is_empty() {
            at
        } else if self.marks == 0 {
            self.lay_samples(octets, at)
        } else {
            self.lay_marked(octets, at)
        }
    }
}

/// Appends the lines of the samples of one carrier at one tick, the first of which has this number. Sample i is marked where
/// bit i of `marks` is 1.
pub fn put_run(
    text: &mut TextBuffer,
    tick: &TickText,
    carrier: u32,
    number: u64,
    samples: &[RawIq],
    marks: u32,
)
    requires room { length text.old + 2560 ≤ text_capacity }
    requires samples { length samples.now ≤ 32 }
    requires numbers { number + length samples.now < 2 ^ 64 }
    ensures { text.new ≡ text.old ++ run_lines tick.now.tick carrier number marks samples.now (length samples.now) }
{
    text.put_laid(&Run {
        tick,
        carrier,
        number,
        samples,
        marks,
    });
}
