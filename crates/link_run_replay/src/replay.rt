// The call `replay PLAN CAPTURE`.
ghost use Rattle.std.specs.Prelude.{◌≡◌, ◌≢◌, true};
ghost use Rattle.link_run_feed.specs.Promises.{Promises};
ghost use Rattle.link_run_replay.specs.Replay.{replay};

use crate::capture_run::CaptureRun;
use link_base::{Shelf, Sink};
use link_run_feed::{Status, read_feed};
use link_run_plan::on_plan;
use std::alloc::Global;

/// Plays the capture of one name by the plan of another, and prints the samples that leave.
pub fn replay_capture<H: Shelf, K: Sink>(
    alloc: Global,
    plan: &str,
    capture: &str,
    shelf: &mut H,
    out: &mut K,
) -> Status
    ensures promises { Promises true (replay plan.now capture.now (H.shown shelf.old).held) (H.shown shelf.old) (H.shown shelf.new) (K.taken out.old) (K.taken out.new) result }
    ensures usage { result ≢ Status.Usage }
{
    match on_plan(alloc, plan, shelf, out) {
        Ok(checked) => read_feed::<CaptureRun, H, K>(&checked, alloc, capture, shelf, out),
        Err(status) => status,
    }
}
