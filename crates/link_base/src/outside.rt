// What the program asks of the outside.
ghost use Rattle.std.specs.Prelude.{◌≡◌, ◌<◌, ◌≤◌, ℕ, length, take, IsTrue, Ok, IfOk, OnOk, OnErr};
ghost use Rattle.link_base.specs.Faults.{HasCause};
ghost use Rattle.link_base.specs.Shelf.{Shown, SameFiles, Opens, FailsToOpen, Takes, FailsToTake};
ghost use Rattle.link_base.specs.Sink.{Taken, Appends, AppendsFront};

use std::error::Error;
use std::fmt;

/// The outside failed, and its count of faults rose.
#[derive(Clone, Copy, Debug, PartialEq, Eq)]
pub struct Failed;

impl fmt::Display for Failed {
    fn fmt<W: fmt::Write>(&self, f: &mut fmt::Formatter<W>) -> fmt::Result {
        write!(f, "the outside failed")
    }
}

impl Error for Failed {}

/// Files by name, of which one at a time is read from its beginning.
pub trait Shelf {
    /// What the shelf shows.
    ghost shown: { Self → Shown };

    /// Gives up the file that was selected, and selects the one of this name.
    fn select(&mut self, name: &str) -> Result<(), Failed>
        ensures cause { HasCause (shown self.old).faults (shown self.new).faults result }
        ensures files { SameFiles (shown self.old) (shown self.new) }
        ensures opens { OnOk result (IsTrue (shown self.old).tells → Opens name.now (shown self.old) (shown self.new)) }
        ensures fails { OnErr result (IsTrue (shown self.old).tells → FailsToOpen name.now (shown self.old) (shown self.new)) };

    /// Reads the next octets of the selected file into the front of the buffer, and answers how many.
    /// For a buffer that is not empty, 0 is the end of the file.
    fn read(&mut self, buf: &mut [u8]) -> Result<usize, Failed>
        ensures cause { HasCause (shown self.old).faults (shown self.new).faults result }
        ensures files { SameFiles (shown self.old) (shown self.new) }
        ensures bound { IfOk result (λ k. k ≤ length buf.old) }
        ensures empty { length buf.old ≡ 0 → result ≡ Ok 0 }
        ensures takes { IfOk result (λ k. IsTrue (shown self.old).tells → Takes k buf.old buf.new (shown self.old) (shown self.new)) }
        ensures fails { OnErr result (IsTrue (shown self.old).tells → FailsToTake buf.old buf.new (shown self.old) (shown self.new)) };
}

/// A place that text is written to.
pub trait Sink {
    /// What the sink shows.
    ghost taken: { Self → Taken };

    /// Takes octets from the front of the piece, at least one where there is one, and answers how many.
    fn write(&mut self, piece: &[u8]) -> Result<usize, Failed>
        ensures cause { HasCause (taken self.old).faults (taken self.new).faults result }
        ensures bound { IfOk result (λ k. k ≤ length piece.now) }
        ensures some { IfOk result (λ k. 0 < length piece.now → 0 < k) }
        ensures empty { length piece.now ≡ 0 → result ≡ Ok 0 }
        ensures appends { IfOk result (λ k. Appends (take k piece.now) (taken self.old) (taken self.new)) }
        ensures fails { OnErr result (Appends (take 0 piece.now) (taken self.old) (taken self.new)) };
}

/// Writes the whole piece. After an `Err` a front of it was written.
pub fn put_all<K: Sink>(out: &mut K, piece: &[u8]) -> Result<(), Failed>
    ensures cause { HasCause (K.taken out.old).faults (K.taken out.new).faults result }
    ensures front { AppendsFront piece.now (K.taken out.old) (K.taken out.new) }
    ensures whole { OnOk result (Appends piece.now (K.taken out.old) (K.taken out.new)) }
{
    let mut done = 0;
    while done < piece.len() {
        done += out.write(&piece[done..])?;
    }
    Ok(())
}
