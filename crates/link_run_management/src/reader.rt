//! The management channels of a run, read out of the control words of the frames that it plays.

ghost use Rattle.std.specs.Prelude.{◌≡◌, ◌≤◌, ◌++◌, ◌∷◌, [], ℕ, List, Option, length, take, IfOk, OnOk, OnErr};
ghost use Rattle.std.specs.Option.{ForSome, option_copied, option_map};
ghost use Rattle.link_base.specs.Faults.{HasCause};
ghost use Rattle.link_base.specs.WordSize.{IsWordSize};
ghost use Rattle.control_words.specs.Announcement.{IsWithinTable};
ghost use Rattle.link_text.specs.Gathered.{Gathers, BreaksOff};
ghost use Rattle.link_run_management.specs.Management.{frame_lines};
ghost use Rattle.link_run_management.specs.Reads.{StandsFor};

use crate::channel::follow;
use crate::places::Carried;
use control_words::Announce;
use ethernet_channel::FastReader;
use hdlc_channel::SlowReader;
use link_base::{Failed, NoMemory, Sink};
use link_text::TextBuffer;
use std::alloc::Global;
use std::marker::Model;

/// A reader of the management channels of a run. By `StandsFor` contracts see the control words that it was handed, one for each
/// frame from frame 0 on.
#[derive(Drop)]
pub struct ManagementReader {
    // The octets of a control word.
    width: usize,
    announce: Announce,
    // The place of the next frame in its hyperframe.
    x: u8,
    slow: SlowReader,
    fast: FastReader,
}

impl Model for ManagementReader {
    ghost use Rattle.link_base.specs.WordSize.{IsWordSize};
    ghost use Rattle.control_words.specs.Announcement.{IsWithinTable};
    ghost use Rattle.link_run_management.specs.Reads.{ReaderView};

    ghost Value = { ReaderView };

    ghost view = { λ r. record { width = r.width; announce = r.announce; x = r.x; slow = r.slow; fast = r.fast } };

    ghost invariant = { λ r. IsWordSize r.width × IsWithinTable r.width r.announce };
}

/// The first octets of a control word, unless its frame is missed.
fn front(word: Option<&[u8]>, count: usize) -> Option<&[u8]>
    requires { ForSome word (λ octets. count ≤ length octets.now) }
    ensures { option_copied result ≡ option_map (take count) (option_copied word.entry) }
{
    match word {
        Some(octets) => Some(&octets[..count]),
        None => None,
    }
}

impl ManagementReader {
    /// A reader of the channels that this announcement has, in control words of so many octets, before frame 0. All memory that
    /// it needs is taken here.
    pub fn begin(
        alloc: Global,
        width: usize,
        announce: Announce,
    ) -> Result<ManagementReader, NoMemory>
        requires size { IsWordSize width }
        requires within { IsWithinTable width announce }
        ensures width { IfOk result (λ r. r.width ≡ width) }
        ensures announce { IfOk result (λ r. r.announce ≡ announce) }
        ensures stands { IfOk result (λ r. StandsFor r []) }
    {
        Ok(ManagementReader {
            width,
            announce,
            x: 0,
            slow: SlowReader::begin(alloc)?,
            fast: FastReader::begin(alloc)?,
        })
    }

    /// Takes the control word of the next frame, which is played at this tick, or none where the frame is missed. Appends the
    /// lines of what is found then. After an `Err` the reader is of no more use.
    pub fn read<K: Sink>(
        &mut self,
        tick: u64,
        word: Option<&[u8]>,
        text: &mut TextBuffer,
        out: &mut K,
    ) -> Result<(), Failed>
        requires { ForSome word (λ octets. length octets.now ≡ self.old.width) }
        ensures width { self.new.width ≡ self.old.width }
        ensures announce { self.new.announce ≡ self.old.announce }
        ensures cause { HasCause (K.taken out.old).faults (K.taken out.new).faults result }
        ensures stands { OnOk result ((words : List (Option (List ℕ))) → StandsFor self.old words
            → StandsFor self.new (words ++ option_copied word.entry ∷ [])) }
        ensures gathers { OnOk result ((words : List (Option (List ℕ))) → StandsFor self.old words
            → Gathers (frame_lines self.old.width self.old.announce tick words (option_copied word.entry)) text.old (K.taken out.old) text.new (K.taken out.new)) }
        ensures fails { OnErr result ((words : List (Option (List ℕ))) → StandsFor self.old words
            → BreaksOff (frame_lines self.old.width self.old.announce tick words (option_copied word.entry)) text.old (K.taken out.old) (K.taken out.new)) }
    {
        let x = self.x;
        self.x = x.wrapping_add(1);
        match Carried::of(self.width, x, self.announce) {
            Carried::Slow(count) => follow(&mut self.slow, tick, front(word, count), text, out),
            Carried::Fast(count) => follow(&mut self.fast, tick, front(word, count), text, out),
            Carried::Neither => Ok(()),
        }
    }
}
