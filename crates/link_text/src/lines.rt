// The lines of a file that is read in pieces.
ghost use Rattle.std.specs.Prelude.{◌≡◌, ◌≤◌, Some, None, [], IsTrue, IfOk, IfSome, IfNone, length, drop};
ghost use Rattle.link_base.specs.Shelf.{SameFiles};
ghost use Rattle.link_text.specs.Lines.{ending_of, Keeps, ShowsEnding};

use crate::buffer::LineBuffer;
use link_base::{NoMemory, Shelf};
use std::alloc::Global;
use std::marker::Model;

/// The next line of a file, or why there is none.
#[derive(Clone, Copy, Debug, PartialEq, Eq)]
pub enum Line<'a> {
    /// A line, without its line feed, of at most 4,096 octets.
    Text(&'a [u8]),
    /// The file ended after a line feed, or is empty.
    End,
    /// 4,097 octets came without a line feed.
    TooLong,
    /// The file ended within a line.
    Unended,
    /// A read failed before a whole line was at hand.
    Failed,
}

/// Why no further line is given.
#[derive(Clone, Copy, Debug, PartialEq, Eq)]
pub(crate) enum Ending {
    End,
    TooLong,
    Unended,
    Failed,
}

impl Ending {
    fn line<'a>(self) -> Line<'a>
        ensures { ending_of result ≡ Some self }
    {
        match self {
            Ending::End => Line::End,
            Ending::TooLong => Line::TooLong,
            Ending::Unended => Line::Unended,
            Ending::Failed => Line::Failed,
        }
    }
}

/// Reads the lines of the file that a shelf has selected, whatever pieces it comes in, over one buffer of 8,192 octets.
#[derive(Drop)]
pub struct LineReader {
    buffer: LineBuffer,
    ended: Option<Ending>,
}

impl Model for LineReader {
    ghost use Rattle.link_text.specs.Lines.{Reading};

    ghost Value = { Reading };

    ghost view = { λ a. record { rest = a.buffer.rest; ended = a.ended } };
}

impl LineReader {
    ghost use Rattle.std.specs.Borrow.{sem};
    ghost use Rattle.std.specs.Io.BufRead.{Rests};
    ghost use Rattle.link_text.specs.contracts.lines.LineReader.{the_row};

    /// Reserves the buffer, for a file of which nothing was read.
    pub fn begin(alloc: Global) -> Result<LineReader, NoMemory>
        ensures { IfOk result (λ reader. reader ≡ record { rest = []; ended = None }) }
    {
        Ok(LineReader {
            buffer: LineBuffer::new(alloc)?,
            ended: None,
        })
    }

    /// The octets that were read and not yet given, at most 8,192.
    #[inline(always)]
    pub fn at_hand(&self) -> &[u8]
        ensures { result.now ≡ self.now.rest }
    {
        self.buffer.rest()
    }

    /// Passes over so many of the octets at hand: those of whole lines, which the caller took from there.
    #[inline(always)]
    pub fn pass(&mut self, count: usize)
        requires { count ≤ length self.old.rest }
        ensures { self.new ≡ record self.old { rest = drop count self.old.rest } }
    {
        self.buffer.give(count);
    }

    /// Lends the next line. After any other answer the same comes again, and nothing is read. It takes no memory.
    #[inline(always)]
    pub fn next<H: Shelf>(&mut self, shelf: &mut H) -> Line<'_>
        ensures* keeps { sem 𝓛 (Rests the_row self.entry (λ kept. Keeps self.old kept (H.shown shelf.old) (H.shown shelf.new) result)) }
        ensures again { IfSome self.old.ended (λ ending. (ending_of result ≡ Some ending) × (shelf.new ≡ shelf.old)) }
        ensures shows { IfNone self.old.ended (ShowsEnding (H.shown shelf.old) (H.shown shelf.new) (ending_of result)) }
        ensures files { SameFiles (H.shown shelf.old) (H.shown shelf.new) }
        ensures chosen { IsTrue (H.shown shelf.old).tells → (H.shown shelf.new).chosen ≡ (H.shown shelf.old).chosen }
    {
        if let Some(ending) = self.ended {
            return ending.line();
        }
        self.ended = self.buffer.advance(shelf);
        match self.ended {
            None => Line::Text(self.buffer.text()),
            Some(ending) => ending.line(),
        }
    }
}
