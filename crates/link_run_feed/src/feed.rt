// A feed: a file that is read, and answered, line by line.
ghost use Rattle.std.specs.Prelude.{◌≡◌, ◌+◌, ◌^◌, ◌<◌, ◌≤◌, ℕ, List, length, take, Option, IsTrue, IfOk, IfSome, OnOk, OnErr};
ghost use Rattle.link_base.specs.Faults.{HasCause};
ghost use Rattle.link_text.specs.Gathered.{Gathers, BreaksOff};
ghost use Rattle.link_run_feed.specs.Feed.{LineForm};
ghost use Rattle.link_run_feed.specs.FeedCalls.{IsOpened, IsEnded, IsReadAs, BreaksOffAt, ReadsAhead};

use crate::reason::Reason;
use link_base::{Failed, NoMemory, Sink};
use link_text::TextBuffer;
use std::alloc::Global;

/// What a line of a feed is, other than the last one.
#[derive(Clone, Copy, Debug, PartialEq, Eq)]
pub enum Reading {
    /// A line of the form.
    Good,
    /// No line of the form.
    Bad(Reason),
}

/// What was read of the octets at hand.
#[derive(Clone, Copy, Debug, PartialEq, Eq)]
pub struct Ahead {
    /// The octets of the lines that were read, with their line feeds.
    pub octets: usize,
    /// How many lines they are.
    pub lines: u64,
}

impl Ahead {
    /// No line was read.
    pub const NOTHING: Ahead = Ahead {
        octets: 0,
        lines: 0,
    };
}

/// A feed whose header was read, as far as its lines are read.
pub trait Feed: Drop {
    /// What the feed is read by, beside its octets.
    type Given;

    /// The states that the lines lead through. A state may have more than the feed keeps of it.
    ghost State: { Type 0 };

    /// By what it may be read.
    ghost can_open: { Self.Given → Type 0 };

    /// The first state and the text that a header gives, if the line is one.
    ghost header: { Self.Given → List ℕ → Option (State × List ℕ) };

    /// The form of the lines after it.
    ghost lines: { LineForm State };

    /// What the feed keeps is that of this state.
    ghost stands: { Self → State → Type 0 };

    /// What the feed keeps is that of this state, and this text of the header is still to be put.
    ghost opens: { Self → State → List ℕ → Type 0 };

    /// What the feed keeps is that of this state, to which the last line led.
    ghost ended: { Self → State → Type 0 };

    /// How many more lines may be good.
    ghost lines_left: { Self → ℕ };

    /// Reads the header without its line feed. It gives nothing where the line is no header. All memory that the feed needs is
    /// taken here.
    fn open(given: &Self::Given, alloc: Global, line: &[u8]) -> Result<Option<Self>, NoMemory>
        requires can { can_open given.now }
        requires short { length line.now ≤ 4096 }
        ensures opens { IfOk result (IsOpened opens (header given.now line.now)) }
        ensures few { IfOk result (λ opened. IfSome opened (λ feed. lines_left feed ≤ 2 ^ 40)) };

    /// Appends the text that the header settles, once, before the first line.
    fn begin<K: Sink>(&mut self, text: &mut TextBuffer, out: &mut K) -> Result<(), Failed>
        ensures cause { HasCause (K.taken out.old).faults (K.taken out.new).faults result }
        ensures begins { OnOk result ((s : State) (settled : List ℕ) → opens self.old s settled
            → stands self.new s × Gathers settled text.old (K.taken out.old) text.new (K.taken out.new)) }
        ensures few { OnOk result (lines_left self.new ≤ lines_left self.old) }
        ensures fails { OnErr result ((s : State) (settled : List ℕ) → opens self.old s settled
            → BreaksOff settled text.old (K.taken out.old) (K.taken out.new)) };

    /// Whether the last line, `end`, may come.
    fn may_end(&self) -> bool
        ensures { (s : State) → stands self.now s → result ≡ lines.may_end s };

    /// Reads good lines that stand at the front of these octets and settle no text: as many as it likes, or none.
    fn read_ahead(&mut self, octets: &[u8]) -> Ahead
        ensures within { result.octets ≤ length octets.now }
        ensures reads { (s : State) → stands self.old s → ReadsAhead lines s (take result.octets octets.now) result.lines (stands self.new) }
        ensures fewer { lines_left self.new + result.lines ≤ lines_left self.old }
    {
        Ahead::NOTHING
    }

    /// Reads a line without its line feed, and appends the text that it settles. No text is appended where the line is bad.
    /// The feed is of no more use then, nor after an `Err`, where a front of the text was written.
    fn read<K: Sink>(
        &mut self,
        line: &[u8],
        text: &mut TextBuffer,
        out: &mut K,
    ) -> Result<Reading, Failed>
        requires { length line.now ≤ 4096 }
        ensures cause { HasCause (K.taken out.old).faults (K.taken out.new).faults result }
        ensures reads { IfOk result (λ reading. (s : State) → stands self.old s
            → IsReadAs (lines.line s line.now) reading (stands self.new) text.old (K.taken out.old) text.new (K.taken out.new)) }
        ensures fewer { IfOk result (λ reading. reading ≡ Reading.Good → lines_left self.new < lines_left self.old) }
        ensures fails { OnErr result ((s : State) → stands self.old s
            → BreaksOffAt (lines.line s line.now) text.old (K.taken out.old) (K.taken out.new)) };

    /// Appends what the last line settles, which may come.
    fn end<K: Sink>(&mut self, text: &mut TextBuffer, out: &mut K) -> Result<(), Failed>
        ensures cause { HasCause (K.taken out.old).faults (K.taken out.new).faults result }
        ensures ends { OnOk result ((s : State) → stands self.old s → IsTrue (lines.may_end s)
            → IsEnded lines s (ended self.new) text.old (K.taken out.old) text.new (K.taken out.new)) }
        ensures fails { OnErr result ((s : State) → stands self.old s → IsTrue (lines.may_end s)
            → BreaksOff (lines.ending s).1 text.old (K.taken out.old) (K.taken out.new)) };

    /// Appends what is written once nothing follows the last line.
    fn close<K: Sink>(&mut self, text: &mut TextBuffer, out: &mut K) -> Result<(), Failed>
        ensures cause { HasCause (K.taken out.old).faults (K.taken out.new).faults result }
        ensures closes { OnOk result ((s : State) → ended self.old s
            → Gathers (lines.closing s) text.old (K.taken out.old) text.new (K.taken out.new)) }
        ensures fails { OnErr result ((s : State) → ended self.old s
            → BreaksOff (lines.closing s) text.old (K.taken out.old) (K.taken out.new)) };
}
