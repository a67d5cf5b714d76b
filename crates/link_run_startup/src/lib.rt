//! The form `startup EVENTS`: two ends of a link over a list of events.
#![tactic(auto)]

ghost use Rattle.std.specs.Prelude.{◌≢◌, Bool};
ghost use Rattle.link_run_feed.specs.Promises.{Promises};
ghost use Rattle.link_run_startup.specs.Startup.{startup};

mod events;

use events::Events;
use link_base::{Shelf, Sink};
use link_run_feed::{Status, read_feed};
use std::alloc::Global;

/// Runs two ends of a link over the events of the file of this name, and says where each event leaves its end.
pub fn play_events<H: Shelf, K: Sink>(
    alloc: Global,
    events: &str,
    shelf: &mut H,
    out: &mut K,
) -> Status
    ensures usage { result ≢ Status.Usage }
    ensures promises { Promises Bool.true (startup events.now (H.shown shelf.old).held) (H.shown shelf.old) (H.shown shelf.new) (K.taken out.old) (K.taken out.new) result }
{
    read_feed::<Events, H, K>(&(), alloc, events, shelf, out)
}
