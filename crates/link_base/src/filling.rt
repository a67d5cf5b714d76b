// Filling a buffer from a shelf.
ghost use Rattle.std.specs.Prelude.{◌≤◌, length, IsTrue, IfOk, OnErr};
ghost use Rattle.link_base.specs.Faults.{HasCause};
ghost use Rattle.link_base.specs.Filling.{Fills, FailsToFill};
ghost use Rattle.link_base.specs.Shelf.{SameFiles};

use crate::outside::{Failed, Shelf};

/// Reads octets of the selected file until the buffer is full or the file ends, and answers how many.
pub fn fill<H: Shelf>(shelf: &mut H, buf: &mut [u8]) -> Result<usize, Failed>
    ensures cause { HasCause (H.shown shelf.old).faults (H.shown shelf.new).faults result }
    ensures files { SameFiles (H.shown shelf.old) (H.shown shelf.new) }
    ensures fits { IfOk result (λ k. k ≤ length buf.old) }
    ensures fills { IsTrue (H.shown shelf.old).tells → IfOk result (λ k. Fills k buf.old buf.new (H.shown shelf.old) (H.shown shelf.new)) }
    ensures fails { IsTrue (H.shown shelf.old).tells → OnErr result (FailsToFill buf.old (H.shown shelf.old) (H.shown shelf.new)) }
{
    let mut done = 0;
    while done < buf.len() {
        let count = shelf.read(&mut buf[done..])?;
        if count == 0 {
            return Ok(done);
        }
        done += count;
    }
    Ok(done)
}
