// The buffer of a reader of lines.
ghost use Rattle.std.specs.Prelude.{◌≡◌, ◌≢◌, ℕ, List, [], ◌∷◌, ◌++◌, ◌+◌, ◌-◌, ◌*◌, ◌<◌, ◌≤◌, length, take, drop, slice_range, IsTrue, IfOk, OnErr, IfSome, IfNone, vec_len, false};
ghost use Rattle.link_base.specs.Faults.{HasCause};
ghost use Rattle.link_base.specs.Shelf.{SameFiles};
ghost use Rattle.link_text.specs.Lines.{longest, HasNoFeed, Took, ShowsEnding, HasNoFault, ReadFailed};
ghost use Rattle.link_text.specs.LineBuffer.{IsFirstFeed, TakesLine, Cuts, Advanced};

use crate::lanes;
use crate::lines::Ending;
use link_base::{Failed, NoMemory, Shelf};
use memchr::memchr;
use std::alloc::Global;
use std::marker::Model;

/// How many octets are kept at most.
const CAPACITY: usize = 8192;

/// How many octets a line has at most, without its line feed.
const LONGEST: usize = 4096;

/// What a look for a line at hand found.
pub(crate) enum Cut {
    /// A line, which was taken off.
    Line,
    /// More octets than a line has, with no line feed among the first.
    TooLong,
    /// A front of a line.
    Short,
}

/// The octets that were read: those of the line that was given last, and those not yet given.
#[derive(Drop)]
pub(crate) struct LineBuffer {
    octets: Vec<u8>,
    // where the line that was given last begins
    line: usize,
    // where the octets that are not yet given begin
    start: usize,
    // how many octets were read into the buffer
    end: usize,
}

impl Model for LineBuffer {
    ghost use Rattle.std.specs.Prelude.{◌≡◌, ◌≤◌, slice_range, vec_len};
    ghost use Rattle.link_text.specs.LineBuffer.{Buffered};

    ghost Value = { Buffered };

    ghost view = { λ a. record { line = slice_range a.octets.items a.line a.start; rest = slice_range a.octets.items a.start a.end } };

    ghost invariant = { λ a. (vec_len a.octets ≡ 8192) × (a.line ≤ a.start) × (a.start ≤ a.end) × (a.end ≤ 8192) };
}

// Moves the octets from `start` to `end` to the front.
fn move_to_front(octets: &mut Vec<u8>, start: usize, end: usize)
    requires ordered { start ≤ end }
    requires within { end ≤ vec_len octets.old }
    ensures moved { take (end - start) octets.new.items ≡ slice_range octets.old.items start end }
    ensures len { vec_len octets.new ≡ vec_len octets.old }
{
    if start > 0 {
        octets.copy_within(start..end, 0);
    }
}

// The place of the first line feed, where none of the first `searched` octets is one.
fn feed_place(octets: &[u8], searched: usize) -> Option<usize>
    requires within { searched ≤ length octets.now }
    requires none { HasNoFeed (take searched octets.now) }
    ensures some { IfSome result (IsFirstFeed octets.now) }
    ensures none { IfNone result (HasNoFeed octets.now) }
{
    match memchr(b'\n', &octets[searched..]) {
        Some(place) => Some(searched + place),
        None => None,
    }
}

impl LineBuffer {
    pub(crate) fn new(alloc: Global) -> Result<LineBuffer, NoMemory>
        ensures { IfOk result (λ buffer. buffer ≡ record { line = []; rest = [] }) }
    {
        Ok(LineBuffer {
            octets: vec![in alloc; 0; CAPACITY]?,
            line: 0,
            start: 0,
            end: 0,
        })
    }

    /// The line that was taken off last.
    pub(crate) fn text(&self) -> &[u8]
        requires { 0 < length self.now.line }
        ensures { result.now ≡ take (length self.now.line - 1) self.now.line }
    {
        &self.octets[self.line..self.start - 1]
    }

    /// The octets that are not yet given.
    pub(crate) fn rest(&self) -> &[u8]
        ensures rest { result.now ≡ self.now.rest }
        ensures fits { length self.now.line + length self.now.rest ≤ 8192 }
    {
        &self.octets[self.start..self.end]
    }

    /// Gives the first octets of the rest.
    pub(crate) fn give(&mut self, len: usize)
        requires { len ≤ length self.old.rest }
        ensures line { self.new.line ≡ take len self.old.rest }
        ensures rest { self.new.rest ≡ drop len self.old.rest }
    {
        self.line = self.start;
        self.start += len;
    }

    // Takes the line off that is at hand, where the first `searched` octets of the rest are no line feed.
    fn cut(&mut self, searched: usize) -> Cut
        requires within { searched ≤ length self.old.rest }
        requires none { HasNoFeed (take searched self.old.rest) }
        ensures cuts { Cuts self.old self.new result }
        ensures fits { length self.new.line + length self.new.rest ≤ 8192 }
    {
        let rest = self.rest();
        match feed_place(rest, searched) {
            Some(place) if place <= LONGEST => {
                self.give(place + 1);
                Cut::Line
            }
            Some(_) => Cut::TooLong,
            None if rest.len() > LONGEST => Cut::TooLong,
            None => Cut::Short,
        }
    }

    // Reads as many octets as there is room for, after the rest, which is moved to the front.
    fn refill<H: Shelf>(&mut self, shelf: &mut H) -> Result<usize, Failed>
        requires { length self.old.rest < 8192 }
        ensures cause { HasCause (H.shown shelf.old).faults (H.shown shelf.new).faults result }
        ensures files { SameFiles (H.shown shelf.old) (H.shown shelf.new) }
        ensures ok { IfOk result (λ k. (octets : List ℕ) × (length octets ≡ k) × (self.new.rest ≡ self.old.rest ++ octets) × Took octets (H.shown shelf.old) (H.shown shelf.new) × HasNoFault (H.shown shelf.old) (H.shown shelf.new)) }
        ensures end { IfOk result (λ k. k ≡ 0 → IsTrue (H.shown shelf.old).tells → (H.shown shelf.new).left ≡ []) }
        ensures fits { length self.new.line + length self.new.rest ≤ 8192 }
        ensures err { OnErr result ((self.new.rest ≡ self.old.rest) × Took [] (H.shown shelf.old) (H.shown shelf.new) × ReadFailed (H.shown shelf.old) (H.shown shelf.new)) }
    {
        let len = self.end - self.start;
        move_to_front(&mut self.octets, self.start, self.end);
        self.line = 0;
        self.start = 0;
        self.end = len;
        let count = shelf.read(&mut self.octets[len..])?;
        self.end += count;
        Ok(count)
    }

    // Takes the line off that is at hand, where it is short.
    #[inline(always)]
    fn take_near(&mut self) -> bool
        ensures near { IsTrue result → TakesLine self.old.rest self.new }
        ensures far { result ≡ false → self.new ≡ self.old }
        ensures fits { length self.new.line + length self.new.rest ≤ 8192 }
    {
        let rest = self.rest();
        if rest.len() < lanes::OCTETS {
            return false;
        }
        match lanes::near_feed(rest) {
            Some(place) => {
                self.give(place + 1);
                true
            }
            None => false,
        }
    }

    /// Takes the next line off, and reads until it is at hand.
    #[inline(always)]
    pub(crate) fn advance<H: Shelf>(&mut self, shelf: &mut H) -> Option<Ending>
        ensures advanced { Advanced self.old self.new (H.shown shelf.old) (H.shown shelf.new) result }
        ensures shows { ShowsEnding (H.shown shelf.old) (H.shown shelf.new) result }
        ensures files { SameFiles (H.shown shelf.old) (H.shown shelf.new) }
        ensures fits { length self.new.line + length self.new.rest ≤ 8192 }
    {
        if self.take_near() {
            return None;
        }
        self.read_on(shelf)
    }

    // The same of a line that is long or not yet at hand.
    #[cold]
    #[inline(never)]
    fn read_on<H: Shelf>(&mut self, shelf: &mut H) -> Option<Ending>
        ensures advanced { Advanced self.old self.new (H.shown shelf.old) (H.shown shelf.new) result }
        ensures shows { ShowsEnding (H.shown shelf.old) (H.shown shelf.new) result }
        ensures files { SameFiles (H.shown shelf.old) (H.shown shelf.new) }
        ensures fits { length self.new.line + length self.new.rest ≤ 8192 }
    {
        let mut searched = 0;
        loop {
            match self.cut(searched) {
                Cut::Line => return None,
                Cut::TooLong => return Some(Ending::TooLong),
                Cut::Short => {}
            }
            searched = self.rest().len();
            match self.refill(shelf) {
                Ok(0) if searched == 0 => return Some(Ending::End),
                Ok(0) => return Some(Ending::Unended),
                Ok(_) => {}
                Err(Failed) => return Some(Ending::Failed),
            }
        }
    }
}
