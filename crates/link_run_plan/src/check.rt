// The call `check PLAN`.
ghost use Rattle.std.specs.Prelude.{◌≡◌, ◌≢◌, false};
ghost use Rattle.link_run_feed.specs.Promises.{Promises};
ghost use Rattle.link_run_plan.specs.Check.{check};

use crate::answers::give_yes;
use crate::judgement::on_plan;
use link_base::{Shelf, Sink};
use link_run_feed::Status;
use std::alloc::Global;

/// Says whether the plan of this name meets the rules.
pub fn check_plan<H: Shelf, K: Sink>(
    alloc: Global,
    plan: &str,
    shelf: &mut H,
    out: &mut K,
) -> Status
    ensures promises { Promises false (check plan.now (H.shown shelf.old).held) (H.shown shelf.old) (H.shown shelf.new) (K.taken out.old) (K.taken out.new) result }
    ensures usage { result ≢ Status.Usage }
{
    match on_plan(alloc, plan, shelf, out) {
        Ok(checked) => give_yes(&checked, out),
        Err(status) => status,
    }
}
