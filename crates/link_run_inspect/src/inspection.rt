//! The form `inspect LINE`.

ghost use Rattle.std.specs.Prelude.{◌≢◌, Bool};
ghost use Rattle.link_run_feed.specs.Promises.{Promises};
ghost use Rattle.link_run_inspect.specs.Course.{inspect};

use crate::inspector::Inspector;
use link_base::{Shelf, Sink};
use link_run_feed::{Status, read_feed};
use std::alloc::Global;

/// Reads the line in the file of this name, and says what its basic frames show.
pub fn inspect<H: Shelf, K: Sink>(alloc: Global, line: &str, shelf: &mut H, out: &mut K) -> Status
    ensures usage { result ≢ Status.Usage }
    ensures promises { Promises Bool.true (inspect line.now (H.shown shelf.old).held)
        (H.shown shelf.old) (H.shown shelf.new) (K.taken out.old) (K.taken out.new) result }
{
    read_feed::<Inspector, H, K>(&(), alloc, line, shelf, out)
}
