// The first line of a capture.
ghost use Rattle.std.specs.Prelude.{ℕ, ◌≡◌, ◌≤◌, ◌^◌, IfSome};
ghost use Rattle.link_text.specs.Fields.{at_first_space};
ghost use Rattle.control_words.specs.Announcement.{IsWithinTable};
ghost use Rattle.link_text.specs.Decimals.{decimal_value};
ghost use Rattle.link_run_capture.specs.Capture.{at_most, longest_run, first_version, with_channels, with_run, header_of, run_header};

use control_words::Announce;
use link_text::{at_first_space, decimal};

/// The files that begin by saying what a run is.
#[derive(Clone, Copy, Debug, PartialEq, Eq)]
pub enum RunFile {
    /// The packets that arrive.
    Capture,
    /// The samples that are sent.
    Samples,
}

/// The two versions of these files.
#[derive(Clone, Copy, Debug, PartialEq, Eq)]
pub enum Version {
    One,
    Two,
}

/// What the first line of such a file says.
#[derive(Clone, Copy, Debug, PartialEq, Eq)]
pub struct Header {
    pub version: Version,
    /// The length of the run, in ticks.
    pub run_ticks: u64,
    /// What the control words of the run announce. A file of version 1 says nothing of it, and has no management channel.
    pub announce: Announce,
}

impl RunFile {
    ghost use Rattle.std.specs.Prelude.{◌≡◌};
    ghost use Rattle.link_run_capture.specs.Capture.{header_word, longest_run};

    /// The first word of a header.
    pub fn word(self, version: Version) -> &'static str
        ensures { result.now ≡ header_word self version }
    {
        match (self, version) {
            (RunFile::Capture, Version::One) => "capture",
            (RunFile::Capture, Version::Two) => "capture2",
            (RunFile::Samples, Version::One) => "samples",
            (RunFile::Samples, Version::Two) => "samples2",
        }
    }

    /// The greatest length of a run, in ticks.
    pub fn longest_run(self, version: Version) -> u64
        ensures { result ≡ longest_run self version }
    {
        match (self, version) {
            (RunFile::Capture, Version::One) => 4096,
            (RunFile::Capture, Version::Two) => 1 << 40,
            (RunFile::Samples, Version::One) => 4096,
            (RunFile::Samples, Version::Two) => 1_048_576,
        }
    }
}

impl Version {
    ghost use Rattle.std.specs.Prelude.{◌≡◌};
    ghost use Rattle.link_run_capture.specs.Capture.{most_records};

    /// The greatest number of records of a capture.
    pub fn most_records(self) -> u64
        ensures { result ≡ most_records self }
    {
        match self {
            Version::One => 65_536,
            Version::Two => 1 << 40,
        }
    }
}

// A number that is at most this one.
fn number(text: &[u8], most: u64) -> Option<u64>
    ensures number { result ≡ at_most most (decimal_value text.now) }
    ensures few { IfSome result (λ n. n ≤ most) }
{
    decimal(text, most)
}

// The header of version 1 by the text of its length.
fn first_version(file: RunFile, run: &[u8]) -> Option<Header>
    ensures header { result ≡ first_version (at_most (longest_run file Version.One) (decimal_value run.now)) }
    ensures within { (width : ℕ) → IfSome result (λ header. IsWithinTable width header.announce) }
    ensures few { IfSome result (λ header. header.run_ticks ≤ longest_run file header.version) }
{
    let version = Version::One;
    let Some(run_ticks) = number(run, file.longest_run(version)) else {
        return None;
    };
    Some(Header {
        version,
        run_ticks,
        announce: Announce {
            version: 1,
            hdlc: 0,
            pointer: 0,
            l1: 0,
        },
    })
}

// The header of version 2 by the texts of its three numbers.
fn with_channels(
    file: RunFile,
    width: usize,
    run: &[u8],
    hdlc: &[u8],
    pointer: &[u8],
) -> Option<Header>
    ensures header { result ≡ with_channels width (at_most (longest_run file Version.Two) (decimal_value run.now)) (at_most 255 (decimal_value hdlc.now)) (at_most 255 (decimal_value pointer.now)) }
    ensures within { IfSome result (λ header. IsWithinTable width header.announce) }
    ensures few { IfSome result (λ header. header.run_ticks ≤ longest_run file header.version) }
{
    let version = Version::Two;
    let Some(run_ticks) = number(run, file.longest_run(version)) else {
        return None;
    };
    let Some(hdlc) = number(hdlc, 255) else {
        return None;
    };
    let Some(pointer) = number(pointer, 255) else {
        return None;
    };
    match Announce::of_channels(width, hdlc as u8, pointer as u8) {
        Some(announce) => Some(Header {
            version,
            run_ticks,
            announce,
        }),
        None => None,
    }
}

// The header of version 2 by the text after its word.
fn second_version(file: RunFile, width: usize, fields: &[u8]) -> Option<Header>
    ensures header { result ≡ with_run file width (at_first_space fields.now) }
    ensures within { IfSome result (λ header. IsWithinTable width header.announce) }
    ensures few { IfSome result (λ header. header.run_ticks ≤ longest_run file header.version) }
{
    let Some((run, channels)) = at_first_space(fields) else {
        return None;
    };
    let Some((hdlc, pointer)) = at_first_space(channels) else {
        return None;
    };
    with_channels(file, width, run, hdlc, pointer)
}

/// What the first line of a capture says, in words of so many octets: `capture H`, or `capture2 H HDLC POINTER`. None where the
/// line is no header.
pub fn read_header(width: usize, line: &[u8]) -> Option<Header>
    ensures header { result ≡ header_of width line.now }
    ensures within { IfSome result (λ header. IsWithinTable width header.announce) }
    ensures few { IfSome result (λ header. header.run_ticks ≤ 2 ^ 40) }
{
    read_run_header(RunFile::Capture, width, line)
}

/// What the first line of such a file says, in words of so many octets: its word and H, or its other word and H HDLC POINTER.
/// None where the line is no header.
#[tactic(auto, unfolding(crate::specs::Capture::run_header))]
pub fn read_run_header(file: RunFile, width: usize, line: &[u8]) -> Option<Header>
    ensures header { result ≡ run_header file width line.now }
    ensures within { IfSome result (λ header. IsWithinTable width header.announce) }
    ensures few { IfSome result (λ header. header.run_ticks ≤ longest_run file header.version) }
{
    let Some((word, fields)) = at_first_space(line) else {
        return None;
    };
    if word == file.word(Version::One).as_bytes() {
        return first_version(file, fields);
    }
    if word == file.word(Version::Two).as_bytes() {
        return second_version(file, width, fields);
    }
    None
}
