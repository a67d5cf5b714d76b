// The entries of a drill, counted as they leave.
ghost use Rattle.std.specs.Prelude.{◌≡◌, ◌+◌, ◌*◌, ◌<◌, ◌≤◌, ◌^◌, ◌++◌, All, List, length};
ghost use Rattle.link_receiver.specs.declared.entry.Entry.{Entry};
ghost use Rattle.link_drill.specs.DrillStream.{drawn_place, drill_stream};
ghost use Rattle.link_drill.specs.InRun.{IsInRun};
ghost use Rattle.link_drill.specs.Summary.{equal_in, is_equal, marked_in};
ghost use Rattle.link_drill.specs.Tally.{IsTally};

use link_receiver::Entry;
use sample_bits::RawIq;

/// The counts of the entries that left.
#[derive(Clone, Copy)]
pub(crate) struct Tally {
    /// All of them.
    pub(crate) samples: u64,
    /// Those with the value with which the sample was handed in.
    pub(crate) equal: u64,
    /// Those without a value.
    pub(crate) marked: u64,
}

// Where the sample of an entry stands among those that were drawn.
fn place_of(entry: &Entry, words: usize) -> usize
    requires words { words ≤ 16 }
    requires run { IsInRun words 256 entry.now }
    ensures value { result ≡ drawn_place words entry.now.carrier entry.now.number }
    ensures within { result < 4 * (256 * words) }
{
    let first = entry.number / 4 * words as u64 + u64::from(entry.carrier);
    (4 * first + entry.number % 4) as usize
}

// Whether an entry has its sample's value.
fn is_equal(entry: &Entry, drawn: &[RawIq], words: usize) -> bool
    requires words { words ≤ 16 }
    requires drawn { length drawn.now ≡ 4 * (256 * words) }
    requires run { IsInRun words 256 entry.now }
    ensures { result ≡ is_equal (drill_stream words 256 drawn.now) entry.now }
{
    let sample = drawn[place_of(entry, words)];
    match entry.value {
        Some(value) => value == sample,
        None => false,
    }
}

// How many entries have their samples' values.
fn count_equal(entries: &[Entry], drawn: &[RawIq], words: usize) -> u64
    requires words { words ≤ 16 }
    requires drawn { length drawn.now ≡ 4 * (256 * words) }
    requires run { All (IsInRun words 256) entries.now }
    ensures { result ≡ equal_in (drill_stream words 256 drawn.now) entries.now }
{
    let mut equal = 0;
    for entry in entries {
        if is_equal(entry, drawn, words) {
            equal += 1;
        }
    }
    equal
}

fn count_marked(entries: &[Entry]) -> u64
    ensures { result ≡ marked_in entries.now }
{
    entries.iter().filter(|entry| entry.value.is_none()).count() as u64
}

impl Tally {
    /// No entry left.
    pub(crate) const NOTHING: Tally = Tally {
        samples: 0,
        equal: 0,
        marked: 0,
    };

    /// Counts more entries of a run whose samples were drawn.
    pub(crate) fn count(&mut self, entries: &[Entry], drawn: &[RawIq], words: usize)
        requires words { words ≤ 16 }
        requires drawn { length drawn.now ≡ 4 * (256 * words) }
        requires run { All (IsInRun words 256) entries.now }
        requires few { self.old.samples + length entries.now ≤ 2 ^ 32 }
        requires equal { self.old.equal ≤ self.old.samples }
        requires marked { self.old.marked ≤ self.old.samples }
        ensures { (before : List Entry) → IsTally (drill_stream words 256 drawn.now) before self.old
            → IsTally (drill_stream words 256 drawn.now) (before ++ entries.now) self.new }
    {
        self.samples += entries.len() as u64;
        self.equal += count_equal(entries, drawn, words);
        self.marked += count_marked(entries);
    }
}
